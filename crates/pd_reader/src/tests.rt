//! Worked rows, and one call of each public function.

use super::*;
use std::alloc::Global;

/// The left-handed trefoil: 36 bytes.
const TREFOIL: &[u8] = b"PD[X[1,4,2,5],X[3,6,4,1],X[5,2,6,3]]";

/// Texts of diagrams that are refused, and why.
const REFUSED: [(&[u8], TextFault); 13] = [
    (b"PD[P[1,2]]", TextFault::Head { at: 3 }),
    (b"PD[X[0,1,1,2]]", TextFault::Number { at: 5 }),
    (b" \n", TextFault::Text { at: 2 }),
    (
        b"PD[Loop[1],Loop[1]]",
        TextFault::Label { label: 1, count: 4 },
    ),
    (
        b"PD[Loop[3],X[9,9,5,7]]",
        TextFault::Label { label: 5, count: 1 },
    ),
    (b"PD[Y[1,2,3]]", TextFault::Head { at: 3 }),
    (b"PD[Loop[1234567]]", TextFault::Number { at: 14 }),
    (b"PD[Loop[01]]", TextFault::Number { at: 8 }),
    (b"PD[Lo op[1]]", TextFault::Text { at: 5 }),
    (b"PD[Loop[1 2]]", TextFault::Number { at: 10 }),
    (b"PD[Loop[1],]", TextFault::Text { at: 11 }),
    (b"PD[Loop[-1]]", TextFault::Text { at: 8 }),
    (b"PD[],", TextFault::Text { at: 4 }),
];

/// The trefoil's items.
const CROSSINGS: [Item; 3] = [
    Item::X([1, 4, 2, 5]),
    Item::X([3, 6, 4, 1]),
    Item::X([5, 2, 6, 3]),
];

/// Other spellings of the trefoil, with white space of each kind.
const SPELLINGS: [&[u8]; 2] = [
    TREFOIL,
    b" PD\t[\rX\n[ 1 ,4,2,5 ] , X[3,6,4,1],X[5,2,6,3] ]\n",
];

/// Texts of nets: why they are refused, if they are.
const NETS: [(&[u8], Option<TextFault>); 4] = [
    (b"Net[Y[1,2,3],Y[3,2,1]]", None),
    (
        b"Net[Y[1,2,3]]",
        Some(TextFault::Label { label: 1, count: 1 }),
    ),
    (b"PD[]", Some(TextFault::Head { at: 0 })),
    (b"Net[Y[1,2,3,4]]", Some(TextFault::Text { at: 11 })),
];

/// Why the bytes are no text of a diagram, if they are none.
fn pd_fault(alloc: Global, text: &[u8]) -> Option<TextFault> {
    match read_pd(alloc, text) {
        Ok(_) => None,
        Err(fault) => Some(fault),
    }
}

/// Why the bytes are no text of a net, if they are none.
fn net_fault(alloc: Global, text: &[u8]) -> Option<TextFault> {
    match read_net(alloc, text) {
        Ok(_) => None,
        Err(fault) => Some(fault),
    }
}

/// Whether the diagram is written as this text.
fn is_written(alloc: Global, diagram: &Diagram, text: &[u8]) -> bool {
    match write_pd(alloc, diagram) {
        Ok(written) => written.as_slice() == text,
        Err(_) => false,
    }
}

/// Whether the bytes spell the trefoil.
fn spells_trefoil(alloc: Global, text: &[u8]) -> bool {
    match read_pd(alloc, text) {
        Ok(diagram) => diagram.items() == CROSSINGS.as_slice()
            && is_written(alloc, &diagram, TREFOIL),
        Err(_) => false,
    }
}

#[test]
fn worked_rows(rt: HostRuntime) {
    for (text, fault) in REFUSED {
        assert!(rt; pd_fault(rt.alloc(), text) == Some(fault), "{fault:?}");
    }
    for text in SPELLINGS {
        assert!(rt; spells_trefoil(rt.alloc(), text));
    }
    for (text, fault) in NETS {
        assert!(rt; net_fault(rt.alloc(), text) == fault, "{fault:?}");
    }
}

/// Whether the torus link with three crossings is written as this text.
fn torus_is_written(alloc: Global, text: &[u8]) -> bool {
    match torus(alloc, 3) {
        Ok(three) => is_written(alloc, &three, text),
        Err(_) => false,
    }
}

/// Whether the loop of the greatest label is written as this text.
fn loop_is_written(alloc: Global, text: &[u8]) -> bool {
    match Diagram::new(alloc, &[Item::Loop(2_000_000)]) {
        Ok(unknot) => is_written(alloc, &unknot, text),
        Err(_) => false,
    }
}

/// How many items the net of one loop has.
fn loop_net_size(alloc: Global) -> Option<usize> {
    match NetDiagram::new(alloc, &[NetItem::Loop(1)]) {
        Ok(net) => Some(net.items().len()),
        Err(_) => None,
    }
}

/// The torus link with three crossings, and a diagram and a net made of items.
#[test]
fn made_of_items(rt: HostRuntime) {
    assert!(rt; torus_is_written(rt.alloc(), b"PD[X[2,4,3,1],X[4,6,5,3],X[6,2,1,5]]"));
    assert!(rt; loop_is_written(rt.alloc(), b"PD[Loop[2000000]]"));
    assert!(rt; loop_net_size(rt.alloc()) == Some(1));
}

/// The calls that the readers stand on: white space, the beginning of a word, and the byte at a place.
#[test]
fn tokens(rt: HostRuntime) {
    assert!(rt; skip(b"a \n\tb", 1) == 4);
    assert!(rt; agree(b"R2Un[", 0, b"R2Undo") == 4);
    assert!(rt; place_at(b"PD", 2) == Place::Text { at: 2 });
}

/// The calls that the readers stand on: numbers.
#[test]
fn numbers(rt: HostRuntime) {
    assert!(rt; number(b"7,12", 2) == Some((12, 4)));
    assert!(rt; number(b"012", 0) == None);
    assert!(rt; read_number(b" 12]", 0) == Ok((12, 3)));
    assert!(rt; read_number(b" ]", 0) == Err(1));
}

/// Whether a list in braces has these numbers, and ends here.
fn reads_inside(alloc: Global, text: &[u8], numbers: &[i32], end: usize) -> bool {
    match read_inside::<i32>(alloc, text, 0, b'}') {
        Ok((entries, found)) => entries.as_slice() == numbers && found == end,
        Err(_) => false,
    }
}

/// Whether a list that goes on behind 7 breaks off here, and these numbers are kept of it.
fn breaks_off(alloc: Global, text: &[u8], at: usize, numbers: &[i32]) -> bool {
    match Vec::from_slice(alloc, &[7]) {
        Ok(mut kept) => {
            read_behind(text, 0, b']', &mut kept) == Err(Stop::At(at)) && kept.as_slice() == numbers
        }
        Err(_) => false,
    }
}

/// A list in braces, of signed numbers, and what is kept of one that breaks off.
#[test]
fn signed_numbers(rt: HostRuntime) {
    assert!(rt; reads_inside(rt.alloc(), b" 1, - 2 }x", &[1, -2], 9));
    assert!(rt; breaks_off(rt.alloc(), b",-5,x", 4, &[7, -5]));
}
