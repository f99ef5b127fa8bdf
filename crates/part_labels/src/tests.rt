use crate::least_names;
use std::alloc::AllocError;

// Each row: how many names, the edges, and the least name of each part, found by hand.
#[test]
fn names_the_least_of_each_part(rt: HostRuntime) {
    let rows: [(usize, &[(usize, usize)], &[usize]); 6] = [
        (0, &[], &[]),
        (3, &[], &[0, 1, 2]),
        (5, &[(3, 1), (4, 3)], &[0, 1, 2, 1, 1]),
        (5, &[(1, 1), (2, 4), (4, 2), (4, 0)], &[0, 1, 0, 3, 0]),
        (
            7,
            &[(0, 1), (2, 1), (2, 3), (4, 3), (4, 5), (6, 5)],
            &[0, 0, 0, 0, 0, 0, 0],
        ),
        (6, &[(4, 5), (2, 3), (3, 5), (0, 1)], &[0, 0, 2, 2, 2, 2]),
    ];
    for (names, edges, least) in rows {
        match least_names(rt.alloc(), names, edges) {
            Ok(entries) => assert_eq!(rt; entries.as_slice(), least, "{names} names"),
            Err(AllocError) => assert!(rt; false, "memory is there"),
        }
    }
}
