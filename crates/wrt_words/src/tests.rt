//! Worked rows: words, and the parts that `clap` takes from them.

use crate::{WordsFault, command_line, read_words};
use std::alloc::Global;
use wrt_parts::Parts;

/// A command, its numbers, the values of `--colors`, `--framing`, `--workers` and `--order`, and whether
/// `--turns` and `--even` are given.
type Wanted = (
    &'static str,
    &'static [&'static str],
    [Option<&'static str>; 4],
    [bool; 2],
);

/// No option has a value.
const BARE: [Option<&str>; 4] = [None; 4];

/// No flag is given.
const UNSET: [bool; 2] = [false; 2];

/// Words in any order that is taken, and their parts.
const TAKEN: [(&[&str], Wanted); 7] = [
    (
        &["bracket", "41", "2", "5"],
        ("bracket", &["41", "2", "5"], BARE, UNSET),
    ),
    (
        &["--turns", "bracket", "41", "2", "--order=3,1,2", "5"],
        (
            "bracket",
            &["41", "2", "5"],
            [None, None, None, Some("3,1,2")],
            [true, false],
        ),
    ),
    (
        &[
            "wrt",
            "41",
            "--framing=-1",
            "--colors=",
            "--workers",
            "4",
            "2",
            "--even",
        ],
        (
            "wrt",
            &["41", "2"],
            [Some(""), Some("-1"), Some("4"), None],
            [false, true],
        ),
    ),
    (&["torus"], ("torus", &[], BARE, UNSET)),
    (&["help"], ("help", &[], BARE, UNSET)),
    (&["", "", "-"], ("", &["", "-"], BARE, UNSET)),
    (
        &["bracket", "--", "41", "-2", "--turns"],
        ("bracket", &["41", "-2", "--turns"], BARE, UNSET),
    ),
];

/// Words that `clap` doesn't take.
const REFUSED: [&[&str]; 12] = [
    &[],
    &["--turns"],
    &["--help"],
    &["-h"],
    &["--version"],
    &["bracket", "41", "2", "5", "--help"],
    &["bracket", "41", "2", "5", "--odd"],
    &["bracket", "41", "2", "-5"],
    &["bracket", "41", "2", "5", "--order"],
    &["bracket", "41", "2", "5", "--order=1", "--order=1"],
    &["bracket", "41", "2", "5", "--turns", "--turns"],
    &["bracket", "41", "2", "5", "--turns=true"],
];

/// Whether the parts are those that are wanted.
fn are_wanted(parts: &Parts, wanted: Wanted) -> bool {
    let (command, numbers, options, flags) = wanted;
    parts.command == command
        && parts.numbers.as_slice() == numbers
        && [parts.colors, parts.framing, parts.workers, parts.order] == options
        && [parts.turns, parts.even] == flags
}

/// Whether `clap` takes the words, and they have the parts that are wanted.
fn have_parts(alloc: Global, words: &[&str], wanted: Wanted) -> bool {
    match command_line(alloc, words) {
        Ok(line) => match read_words(alloc, &line) {
            Ok(parts) => are_wanted(&parts, wanted),
            Err(_) => false,
        },
        Err(_) => false,
    }
}

/// Whether `clap` doesn't take the words.
fn are_refused(alloc: Global, words: &[&str]) -> bool {
    match command_line(alloc, words) {
        Ok(line) => matches!(read_words(alloc, &line), Err(WordsFault::Refused)),
        Err(_) => false,
    }
}

#[test]
fn taken_words_have_their_parts(rt: HostRuntime) {
    for (row, (words, wanted)) in TAKEN.into_iter().enumerate() {
        assert!(rt; have_parts(rt.alloc(), words, wanted), "row {row}");
    }
}

#[test]
fn other_words_are_refused(rt: HostRuntime) {
    for (row, words) in REFUSED.into_iter().enumerate() {
        assert!(rt; are_refused(rt.alloc(), words), "row {row}");
    }
}
