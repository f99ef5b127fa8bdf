//! Worked rows at modulus 41, A = 2 and level 5, where a loop is worth 6.

use super::*;
use braid_trace::read_braid;
use pd_reader::Item;
use root_quantum::Params;
use std::test::*;

/// Texts, the brackets of their closures, and how many items these have. The values are those of three loops, of the Hopf link, of both
/// trefoils and of the figure eight.
const ROWS: [(&[u8], u64, usize); 5] = [
    (b"BR[3,{}]", 11, 3),
    (b"BR[2,{1,1}]", 1, 2),
    (b"BR[2,{1,1,1}]", 36, 3),
    (b"BR[2,{-1,-1,-1}]", 10, 3),
    (b"BR[3,{1,-2,1,-2}]", 2, 4),
];

#[test]
fn closed_braids(rt: HostRuntime) -> Result<(), Fail> {
    let params = Params::new(41, 2, 5)?;
    for (text, value, items) in ROWS {
        let braid = read_braid(rt.alloc(), text).ok().ok_or("a braid")?;
        assert_eq!(rt; trace(rt.alloc(), &params, &braid)?, value);
        assert_eq!(rt; closure(rt.alloc(), &braid)?.items().len(), items);
    }
    Ok(())
}

/// The closure of BR[2,{1,1}], and of BR[3,{-2}].
#[test]
fn closed_items(rt: HostRuntime) -> Result<(), Fail> {
    let hopf = read_braid(rt.alloc(), b"BR[2,{1,1}]")
        .ok()
        .ok_or("a braid")?;
    assert_eq!(rt;
        closure(rt.alloc(), &hopf)?.items(),
        [Item::X([2, 4, 3, 1]), Item::X([4, 2, 1, 3])].as_slice()
    );
    let curl = read_braid(rt.alloc(), b"BR[3,{-2}]").ok().ok_or("a braid")?;
    assert_eq!(rt;
        closure(rt.alloc(), &curl)?.items(),
        [Item::X([2, 3, 3, 2]), Item::Loop(1)].as_slice()
    );
    Ok(())
}
