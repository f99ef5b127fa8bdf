//! Worked rows, and one call of each public function.

use super::*;
use std::alloc::AllocError;
use std::test::*;

/// Texts that are refused, and why.
const REFUSED: [(&[u8], BraidFault); 14] = [
    (b"", BraidFault::Text { at: 0 }),
    (b"BR[", BraidFault::Text { at: 3 }),
    (b"PD[]", BraidFault::Head { at: 0 }),
    (b"BR[0,{}]", BraidFault::Number { at: 3 }),
    (b"BR[2]", BraidFault::Text { at: 4 }),
    (b"BR[2,{1,-1]", BraidFault::Text { at: 10 }),
    (b"BR[2,{1,}]", BraidFault::Text { at: 8 }),
    (b"BR[2,{--1}]", BraidFault::Text { at: 7 }),
    (b"BR[2,{0}]", BraidFault::Number { at: 6 }),
    (b"BR[2,{1}]x", BraidFault::Head { at: 9 }),
    (b"BR[2,{1x}]", BraidFault::Head { at: 7 }),
    (b"BR[7,{}]", BraidFault::Strands { given: 7 }),
    (b"BR[2,{2}]", BraidFault::Entry { at: 1, strands: 2 }),
    (b"BR[3,{1,-2,-3}]", BraidFault::Entry { at: 3, strands: 3 }),
];

/// Which texts are refused, and why.
#[test]
fn refused_texts(rt: HostRuntime) -> Result<(), Fail> {
    for (text, fault) in REFUSED {
        assert_eq!(rt; read_braid(rt.alloc(), text).err(), Some(fault));
    }
    Ok(())
}

/// Texts that are read, and what they spell.
const READ: [(&[u8], u32, &[i32]); 4] = [
    (b"BR[1,{}]", 1, &[]),
    (b"BR[2,{-1,-1,-1}]", 2, &[-1, -1, -1]),
    (b"BR[3,{1,-2,1,-2}]", 3, &[1, -2, 1, -2]),
    (b" BR [ 6 , { 5 , - 5 } ] \n", 6, &[5, -5]),
];

/// What texts spell.
#[test]
fn read_texts(rt: HostRuntime) -> Result<(), Fail> {
    for (text, strands, word) in READ {
        let braid = read_braid(rt.alloc(), text).ok().ok_or("a text")?;
        assert_eq!(rt; braid.strands(), strands);
        assert_eq!(rt; braid.word(), word);
    }
    Ok(())
}

/// `BR[2,{1,..,1}]` with so many entries.
fn ones(rt: &HostRuntime, count: u32) -> Result<Vec<u8>, AllocError> {
    let mut text = Vec::from_slice(rt.alloc(), b"BR[2,{1")?;
    for _ in 1..count {
        text.extend_from_slice(b",1")?;
    }
    text.extend_from_slice(b"}]")?;
    Ok(text)
}

/// 250 entries are read, and no more.
#[test]
fn most_entries(rt: HostRuntime) -> Result<(), Fail> {
    assert_eq!(rt; read_braid(rt.alloc(), &ones(&rt, 250)?).err(), None);
    assert_eq!(rt;
        read_braid(rt.alloc(), &ones(&rt, 251)?).err(),
        Some(BraidFault::TooMany { limit: 250 })
    );
    Ok(())
}
