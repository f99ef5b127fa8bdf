//! Closures of braids: they are planar, and have the brackets that `braid` prints.

ghost use Rattle.std.specs.Prelude.{◌≤◌};

use super::*;
use braid_closures::closure;
use braid_trace::read_braid;
use pd_reader::write_pd;
use planar_check::check;
use std::test::*;

/// Words that were drawn at random.
const DRAWN: [&str; 10] = [
    "BR[3,{2,1,-2,1,2}]",
    "BR[4,{-2,1,-3,-2,-1,-2,1}]",
    "BR[4,{1,1,2,-2}]",
    "BR[3,{1,-1,1,1}]",
    "BR[4,{-1,-3,-1,-3,-1}]",
    "BR[3,{1,-2,1,1,-1,1}]",
    "BR[2,{1,-1,1,1,-1}]",
    "BR[2,{1,-1,1,1,1,1,1}]",
    "BR[3,{-2,2,1,1}]",
    "BR[3,{-1,-1,2}]",
];

/// The answer of a command at 41, 2 and 5 on a line of input.
fn answer_of(
    alloc: Global,
    threads: &(impl Threads + Sync),
    command: &str,
    input: &str,
) -> Result<Answer, Fail> {
    let mut row = Row::new(alloc, &format!(in alloc; "{command} 41 2 5")?)?;
    row.add(&format!(in alloc; "< {input}")?)
        .ok()
        .ok_or("a line")?;
    Ok(run_row(alloc, threads, &row)?)
}

/// What `braid` prints of a braid, `bracket` prints of its closure.
#[test]
fn brackets_of_closures(rt: HostRuntime) -> Result<(), Fail> {
    for text in DRAWN {
        let braid = read_braid(rt.alloc(), text.as_bytes())
            .ok()
            .ok_or("a braid")?;
        let written = write_pd(rt.alloc(), &closure(rt.alloc(), &braid)?)?;
        let written = String::from_utf8_lossy(rt.alloc(), &written)?;
        let of_braid = answer_of(rt.alloc(), &rt, "braid", text)?;
        let of_closure = answer_of(rt.alloc(), &rt, "bracket", &written)?;
        assert!(rt;
            of_braid.code == 0
                && of_closure.code == 0
                && of_braid.report.as_slice() == of_closure.report.as_slice(),
            "{text}"
        );
    }
    Ok(())
}

/// The entries on four strands; the first four are those on three.
const ENTRIES: [&str; 6] = ["1", "-1", "2", "-2", "3", "-3"];

/// The text of word `number` of so many entries, on three strands or four: the number's digits, the least first, are the entries' places.
fn word(
    rt: &HostRuntime,
    strands: usize,
    length: usize,
    number: usize,
) -> Result<String, AllocError>
    requires some { 2 ≤ strands }
    requires few { strands ≤ 4 }
{
    let letters = 2 * (strands - 1);
    let mut text = format!(in rt.alloc(); "BR[{strands},")?;
    let mut before = "{";
    let mut rest = number;
    for _ in 0..length {
        text.push_str(before)?;
        text.push_str(ENTRIES[rest % letters])?;
        rest /= letters;
        before = ",";
    }
    text.push_str(if length == 0 { "{}]" } else { "}]" })?;
    Ok(text)
}

/// The text of the first word whose closure isn't planar, among so many words of these lengths.
fn first_not_planar(
    rt: &HostRuntime,
    strands: usize,
    words: [usize; 7],
) -> Result<Option<String>, Fail>
    requires some { 2 ≤ strands }
    requires few { strands ≤ 4 }
{
    for (length, count) in words.iter().enumerate() {
        for number in 0..*count {
            let text = word(rt, strands, length, number)?;
            let braid = read_braid(rt.alloc(), text.as_bytes())
                .ok()
                .ok_or("a braid")?;
            if check(rt.alloc(), closure(rt.alloc(), &braid)?).is_err() {
                return Ok(Some(text));
            }
        }
    }
    Ok(None)
}

/// All words of up to six entries on three strands, 5,461, and on four, 55,987.
#[test]
fn short_closures_are_planar(rt: HostRuntime) -> Result<(), Fail> {
    let three = first_not_planar(&rt, 3, [1, 4, 16, 64, 256, 1024, 4096])?;
    let four = first_not_planar(&rt, 4, [1, 6, 36, 216, 1296, 7776, 46656])?;
    assert_eq!(rt; three, None);
    assert_eq!(rt; four, None);
    Ok(())
}
