//! Worked rows, found by hand: pairings, their codes, seams, gluings, nodes and networks.

ghost use Rattle.std.specs.Prelude.{◌≤◌, ◌++◌, ℕ, length};
ghost use Rattle.std.specs.List.Sorted.{IsStrictlyIncreasing};
ghost use Rattle.list_lemmas.specs.Times.{times_in};

use super::*;
use std::alloc::Global;
use std::cmp::Ordering;

/// The partners, those of the mirror image, and whether no two pairs cross.
const PAIRINGS: [(&[u8], &[u8], bool); 5] = [
    (&[], &[], true),
    (&[1, 0, 3, 2], &[1, 0, 3, 2], true),
    (&[3, 2, 1, 0], &[3, 2, 1, 0], true),
    (&[2, 3, 0, 1], &[2, 3, 0, 1], false),
    (&[1, 0, 5, 4, 3, 2], &[3, 2, 1, 0, 5, 4], true),
];

/// Lists that are no pairing, and why.
const NO_PAIRINGS: [(&[u8], PairingFault); 2] = [
    (&[1, 0, 3], PairingFault::NotPairing { at: 2 }),
    (&[0; 25], PairingFault::Long { given: 25 }),
];

/// The code of the pairing 1, 0, 3, 2: 1 + 32 (0 + 32 (3 + 32 2)) + 4 * 2^120.
const HOOK: u128 = 68_609 + (4 << 120);

/// Numbers that are no code.
const NO_CODES: [u128; 5] = [
    68_610 + (4 << 120),
    68_609 + (5 << 120),
    68_609 + (1 << 119) + (4 << 120),
    25 << 120,
    u128::MAX,
];

/// A gluing: the partners before and those of the term, the names of their points, and what comes of it.
#[derive(Clone, Copy)]
struct Gluing {
    old: &'static [u8],
    term: &'static [u8],
    inner: &'static [u32],
    ends: &'static [u32],
    names: &'static [u32],
    partners: &'static [u8],
    loops: u32,
}

/// A crossing with a curl closes two loops in one smoothing and one in the other; two strands that cross are joined
/// to two that hook or run on; a pair before and two pairs of the term close two loops; nothing is glued.
const GLUINGS: [Gluing; 6] = [
    Gluing {
        old: &[],
        term: &[1, 0, 3, 2],
        inner: &[],
        ends: &[1, 1, 2, 2],
        names: &[],
        partners: &[],
        loops: 2,
    },
    Gluing {
        old: &[],
        term: &[3, 2, 1, 0],
        inner: &[],
        ends: &[1, 1, 2, 2],
        names: &[],
        partners: &[],
        loops: 1,
    },
    Gluing {
        old: &[2, 3, 0, 1],
        term: &[1, 0, 3, 2],
        inner: &[1, 2, 3, 4],
        ends: &[3, 4, 5, 6],
        names: &[1, 2, 5, 6],
        partners: &[1, 0, 3, 2],
        loops: 0,
    },
    Gluing {
        old: &[2, 3, 0, 1],
        term: &[3, 2, 1, 0],
        inner: &[1, 2, 3, 4],
        ends: &[3, 4, 5, 6],
        names: &[1, 2, 5, 6],
        partners: &[3, 2, 1, 0],
        loops: 0,
    },
    Gluing {
        old: &[1, 0, 5, 4, 3, 2],
        term: &[1, 0, 3, 2],
        inner: &[1, 2, 3, 4, 5, 6],
        ends: &[3, 6, 4, 5],
        names: &[1, 2],
        partners: &[1, 0],
        loops: 2,
    },
    Gluing {
        old: &[1, 0, 3, 2],
        term: &[2, 3, 0, 1],
        inner: &[1, 2, 3, 4],
        ends: &[5, 6, 7, 8],
        names: &[1, 2, 3, 4, 5, 6, 7, 8],
        partners: &[1, 0, 3, 2, 6, 7, 4, 5],
        loops: 0,
    },
];

/// Whether the partners make a pairing with this mirror image that is noncrossing or not.
fn is_mirrored(partners: &[u8], mirror: &[u8], noncrossing: bool) -> bool {
    match Pairing::new(partners) {
        Ok(pairing) => {
            pairing.mirror().partners() == mirror && pairing.is_noncrossing() == noncrossing
        }
        Err(_) => false,
    }
}

/// Whether the partners make a pairing that its copy equals, and that its code gives back.
fn is_kept(partners: &[u8]) -> bool {
    match Pairing::new(partners) {
        Ok(pairing) => {
            pairing.cmp(&pairing.copy()) == Ordering::Equal && is_of_its_code(&pairing)
        }
        Err(_) => false,
    }
}

/// Whether the code of the pairing gives it back.
fn is_of_its_code(pairing: &Pairing) -> bool {
    match Pairing::from_code(pairing.code()) {
        Some(found) => found == *pairing,
        None => false,
    }
}

/// The code of the pairing of these partners.
fn code(partners: &[u8]) -> Option<u128> {
    match Pairing::new(partners) {
        Ok(pairing) => Some(pairing.code()),
        Err(_) => None,
    }
}

/// Why the partners make no pairing.
fn fault(partners: &[u8]) -> Option<PairingFault> {
    match Pairing::new(partners) {
        Ok(_) => None,
        Err(fault) => Some(fault),
    }
}

#[test]
fn pairings(rt: HostRuntime) {
    for (partners, mirror, noncrossing) in PAIRINGS {
        assert!(rt; is_mirrored(partners, mirror, noncrossing));
        assert!(rt; is_kept(partners));
    }
    for (partners, why) in NO_PAIRINGS {
        assert_eq!(rt; fault(partners), Some(why));
    }
}

#[test]
fn codes(rt: HostRuntime) {
    assert_eq!(rt; code(&[1, 0, 3, 2]), Some(HOOK));
    for code in NO_CODES {
        assert!(rt; Pairing::from_code(code).is_none());
    }
}

/// Whether the row's seam leaves the names that it says.
fn is_left(seam: &Seam, names: &[u32]) -> bool {
    seam.names() == names
}

/// Whether it is the row's pairing with its loops.
fn is_found(row: Gluing, glued: &Glued) -> bool {
    glued.pairing.partners() == row.partners && glued.loops == row.loops
}

/// Whether the row's term is glued to its pairing as it says, in one turn that is counted with the others.
fn is_glued(row: Gluing, all: &mut Turns) -> bool
    requires few_names { length row.inner.now ≤ MOST_POINTS }
    requires few_ends { length row.ends.now ≤ MOST_POINTS }
    requires increasing { IsStrictlyIncreasing row.inner.now }
    requires few { (x : ℕ) → times_in (row.inner.now ++ row.ends.now) x ≤ 2 }
{
    let Ok(old) = Pairing::new(row.old) else {
        return false;
    };
    let Ok(term) = Pairing::new(row.term) else {
        return false;
    };
    let Ok(seam) = Seam::of(row.inner, row.ends) else {
        return false;
    };
    let fits = usize::from(old.len()) == row.inner.len();
    let term_fits = usize::from(term.len()) == row.ends.len();
    if !fits || !term_fits || all.count() > 5 {
        return false;
    }
    let mut turns = Turns::new();
    let glued = glue(&old, &term, &seam, &mut turns);
    all.take_in(turns);
    is_left(&seam, row.names) && is_found(row, &glued)
}

#[test]
fn gluings(rt: HostRuntime) {
    let mut all = Turns::new();
    for row in GLUINGS {
        assert!(rt; is_glued(row, &mut all));
    }
    assert_eq!(rt; all.count(), 6);
}

/// The names of six points, and the ends of a node.
const POINTS: [u32; 6] = [1, 2, 3, 4, 5, 6];

const ENDS: [u32; 4] = [2, 4, 7, 8];

/// The names that are left, where the new ends take the places of the points that are glued.
const KEPT: [u32; 6] = [1, 7, 3, 8, 5, 6];

/// The places in 1, 3, 5, 6, 7, 8 of the names 1, 7, 3, 8, 5, 6.
const SORTED: [u8; 6] = [0, 4, 1, 5, 2, 3];

/// The six numbers below six that make this number.
fn digits(number: u32) -> [u8; 6] {
    let mut digits = [0; 6];
    let mut rest = number;
    for digit in &mut digits {
        *digit = (rest % 6) as u8;
        rest /= 6;
    }
    digits
}

/// What a gluing gives: the code of its pairing, which gives the pairing back, and the loops.
fn outcome(glued: &Glued) -> Option<(u128, u32)> {
    if is_of_its_code(&glued.pairing) {
        Some((glued.pairing.code(), glued.loops))
    } else {
        None
    }
}

/// The partners of the six points of the pairing of a code.
fn six(code: u128) -> Option<[u8; 6]> {
    let Some(pairing) = Pairing::from_code(code) else {
        return None;
    };
    if pairing.len() != 6 {
        return None;
    }
    let mut partners = [0; 6];
    for at in 0..6u8 {
        partners[usize::from(at)] = pairing.partner(at);
    }
    Some(partners)
}

/// The gluing of a term of four ends to six points, where the new ends take the places of the glued points.
fn kept_gluing(old: &Pairing, term: &Pairing) -> Option<(u128, u32)> {
    if old.len() != 6 || term.len() != 4 {
        return None;
    }
    let seam = Seam::keeping(&POINTS, &ENDS, &KEPT);
    outcome(&glue(old, term, &seam, &mut Turns::new()))
}

/// The same where the names that are left increase.
fn sorted_gluing(old: &Pairing, term: &Pairing) -> Option<(u128, u32)> {
    if old.len() != 6 || term.len() != 4 {
        return None;
    }
    let Ok(seam) = Seam::of(&POINTS, &ENDS) else {
        return None;
    };
    outcome(&glue(old, term, &seam, &mut Turns::new()))
}

/// Whether both are one pairing: the first with the places kept, the second with the names sorted.
fn are_sorted(kept: &[u8; 6], sorted: &[u8; 6]) -> bool {
    for (place, other) in SORTED.into_iter().zip(*kept) {
        if other > 5 || sorted[usize::from(place)] != SORTED[usize::from(other)] {
            return false;
        }
    }
    true
}

/// The same of their codes.
fn are_one(kept: u128, sorted: u128) -> bool {
    match (six(kept), six(sorted)) {
        (Some(kept), Some(sorted)) => are_sorted(&kept, &sorted),
        _ => false,
    }
}

/// Whether both ways to glue the term to these six points close as many loops and give one pairing.
fn is_glued_alike(old: &Pairing, term: &[u8]) -> bool {
    let Ok(term) = Pairing::new(term) else {
        return false;
    };
    match (kept_gluing(old, &term), sorted_gluing(old, &term)) {
        (Some((kept, loops)), Some((sorted, others))) => loops == others && are_one(kept, sorted),
        _ => false,
    }
}

/// Whether the three terms of four ends are glued alike to these six points. No pairing of six points is `None`.
fn are_glued_alike(partners: &[u8]) -> Option<bool> {
    let Ok(old) = Pairing::new(partners) else {
        return None;
    };
    Some(
        is_glued_alike(&old, &[1, 0, 3, 2])
            && is_glued_alike(&old, &[2, 3, 0, 1])
            && is_glued_alike(&old, &[3, 2, 1, 0]),
    )
}

/// At each pairing of six points, where the new ends take the places of the points that are glued, a gluing is the one
/// whose names increase, listed in another order.
#[test]
fn kept_places(rt: HostRuntime) {
    let mut pairings = 0u32;
    for number in 0..46_656u32 {
        if let Some(alike) = are_glued_alike(&digits(number)) {
            pairings = pairings.wrapping_add(1);
            assert!(rt; alike);
        }
    }
    assert_eq!(rt; pairings, 15);
}

/// The node of this group with these ends, whose one term joins two.
fn joint(alloc: Global, group: u32, ends: &[u32]) -> Result<Node, NodeFault> {
    let Ok(pairing) = Pairing::new(&[1, 0]) else {
        return Err(NodeFault::Memory);
    };
    Node::new(alloc, group, ends, &[Term { weight: 1, pairing }])
}

/// Why there is no such node.
fn node_fault(alloc: Global, ends: &[u32]) -> Option<NodeFault> {
    match joint(alloc, 0, ends) {
        Ok(_) => None,
        Err(fault) => Some(fault),
    }
}

/// The list of one such node.
fn lone(alloc: Global, group: u32, ends: &[u32]) -> Option<Vec<Node>> {
    let Ok(node) = joint(alloc, group, ends) else {
        return None;
    };
    let mut nodes = Vec::new(alloc);
    match nodes.push(node) {
        Ok(()) => Some(nodes),
        Err(_) => None,
    }
}

/// Why one such node makes no network.
fn network_fault(alloc: Global, group: u32, ends: &[u32]) -> Option<NetworkFault> {
    match Network::new(alloc, lone(alloc, group, ends)?, 0) {
        Ok(_) => None,
        Err(fault) => Some(fault),
    }
}

/// Whether the network has one node and two free loops, and these names.
fn is_closed(alloc: Global, network: &Network, names: &[u32]) -> bool {
    let counts = network.nodes().len() == 1 && network.free() == 2;
    match network.names(alloc) {
        Ok(found) => counts && found.as_slice() == names,
        Err(_) => false,
    }
}

/// Whether one node whose two ends are joined makes a network beside two free loops.
fn is_loop(alloc: Global) -> bool {
    let Some(nodes) = lone(alloc, 0, &[4, 4]) else {
        return false;
    };
    match Network::new(alloc, nodes, 2) {
        Ok(network) => is_closed(alloc, &network, &[4, 4]),
        Err(_) => false,
    }
}

#[test]
fn nodes_and_networks(rt: HostRuntime) {
    let alloc = rt.alloc();
    assert_eq!(rt;
        node_fault(alloc, &[1; 25]),
        Some(NodeFault::Long { given: 25 })
    );
    assert_eq!(rt;
        node_fault(alloc, &[1, 2, 3]),
        Some(NodeFault::Ends { term: 0 })
    );
    let open = NetworkFault::Name { name: 1, count: 1 };
    assert_eq!(rt; network_fault(alloc, 3, &[1, 2]), Some(open));
    assert!(rt; is_loop(alloc));
}
