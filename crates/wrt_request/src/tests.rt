//! Worked rows: parts of command lines, and what they ask for.

use crate::{
    Numbers, OptionName, OrderWord, PartsFault, PartsRefusal, Request, Sweep, Task, read_request,
};
use std::alloc::{AllocError, Global};
use wrt_parts::Parts;

/// A command, its numbers and the value of `--order`.
type Words = (&'static str, &'static [&'static str], Option<&'static str>);

/// The values of `--workers`, `--framing` and `--colors`.
type Foreign = [Option<&'static str>; 3];

/// M, A and R of the rows.
const AT_41: [&str; 3] = ["41", "2", "5"];

/// M, A and R of the rows that ask for something, as a request has them.
const NUMBERS_41: Numbers = Numbers {
    modulus: 41,
    root: 2,
    level: 5,
};

/// Words, how many crossings of a torus link they ask for (none for `bracket`), and the list of the order, where it is one.
const ASKED: [(Words, Option<u32>, Option<&[u32]>); 6] = [
    (("bracket", &AT_41, None), None, None),
    (("bracket", &AT_41, Some("listed")), None, None),
    (("bracket", &AT_41, Some("3,1,2")), None, Some(&[3, 1, 2])),
    (("bracket", &AT_41, Some("")), None, Some(&[])),
    (
        ("torus", &["1", "41", "2", "5"], Some("greedy")),
        Some(1),
        None,
    ),
    (
        ("torus", &["256", "41", "2", "5"], Some("999999999")),
        Some(256),
        Some(&[999_999_999]),
    ),
];

/// Words, and the first reason against them.
const REFUSED: [(Words, PartsRefusal); 15] = [
    (("", &[], None), PartsRefusal::UnknownCommand),
    (("knot", &["x"], Some("x")), PartsRefusal::UnknownCommand),
    (("bracket", &[], None), PartsRefusal::Takes { numbers: 3 }),
    (("torus", &AT_41, None), PartsRefusal::Takes { numbers: 4 }),
    (
        ("bracket", &["041", "2", "5"], None),
        PartsRefusal::Number { position: 1 },
    ),
    (
        ("bracket", &["41", "2", ""], Some("x")),
        PartsRefusal::Number { position: 3 },
    ),
    (
        ("bracket", &["41", "+2", "5"], None),
        PartsRefusal::Number { position: 2 },
    ),
    (
        ("torus", &["0", "41", "2", "18446744073709551616"], None),
        PartsRefusal::Number { position: 4 },
    ),
    (("bracket", &AT_41, Some("Greedy")), NO_ORDER),
    (("bracket", &AT_41, Some("1,,2")), NO_ORDER),
    (("bracket", &AT_41, Some("1, 2")), NO_ORDER),
    (("bracket", &AT_41, Some("1000000000")), NO_ORDER),
    (("torus", &["0", "41", "2", "5"], Some("01")), NO_ORDER),
    (
        ("torus", &["0", "41", "2", "5"], None),
        PartsRefusal::Crossings,
    ),
    (
        ("braid", &AT_41, Some("listed")),
        PartsRefusal::Option {
            option: OptionName::Order,
        },
    ),
];

/// The value of `--order` is none.
const NO_ORDER: PartsRefusal = PartsRefusal::List {
    option: OptionName::Order,
};

/// The values of the foreign options `--workers`, `--framing` and `--colors`, each set on top of those before it, and the
/// option that is named then: the first in their order.
const FOREIGN: [(Foreign, OptionName); 3] = [
    ([Some("2"), None, None], OptionName::Workers),
    ([Some("2"), Some("1"), None], OptionName::Framing),
    ([Some("2"), Some("1"), Some("")], OptionName::Colors),
];

/// The names of the options, in their order.
const NAMES: [&str; 6] = ["colors", "framing", "workers", "order", "turns", "even"];

/// The parts of the words, with these values of other options.
fn parts(alloc: Global, words: Words, foreign: Foreign) -> Result<Parts<'static>, AllocError> {
    let (command, numbers, order) = words;
    let [workers, framing, colors] = foreign;
    Ok(Parts {
        command,
        numbers: Vec::from_slice(alloc, numbers)?,
        colors,
        framing,
        workers,
        order,
        turns: false,
        even: false,
    })
}

/// The crossings of the torus link that is asked for, and the options of the sweep, where the task has one.
fn asked(task: &Task) -> Option<(Option<u32>, &Sweep)> {
    match task {
        Task::Bracket { sweep }
        | Task::Colored { sweep, .. }
        | Task::Net { sweep, .. }
        | Task::Wrt { sweep, .. } => Some((None, sweep)),
        Task::Torus { crossings, sweep } => Some((Some(*crossings), sweep)),
        Task::Moves { .. } | Task::Braid | Task::Tetrahedra => None,
    }
}

/// Whether the order is this list, or none where none is given.
fn is_given(order: &OrderWord, list: Option<&[u32]>) -> bool {
    match (order, list) {
        (OrderWord::Given(given), Some(wanted)) => given.members() == wanted,
        (OrderWord::Given(_), None) => false,
        (_, wanted) => wanted.is_none(),
    }
}

/// Whether the request has the rows' numbers, asks for so many crossings of a torus link and has this list as its order.
fn is_wanted(request: &Request, crossings: Option<u32>, list: Option<&[u32]>) -> bool {
    match asked(&request.task) {
        Some((asked, sweep)) => {
            request.numbers == NUMBERS_41
                && asked == crossings
                && !sweep.turns
                && is_given(&sweep.order, list)
        }
        None => false,
    }
}

/// Whether the words ask for so many crossings of a torus link, in the order of this list.
fn ask(alloc: Global, words: Words, crossings: Option<u32>, list: Option<&[u32]>) -> bool {
    match parts(alloc, words, [None; 3]) {
        Ok(parts) => match read_request(alloc, &parts) {
            Ok(request) => is_wanted(&request, crossings, list),
            Err(_) => false,
        },
        Err(_) => false,
    }
}

/// Why the words with these values of other options are refused.
fn refusal(alloc: Global, words: Words, foreign: Foreign) -> Option<PartsRefusal> {
    match parts(alloc, words, foreign) {
        Ok(parts) => match read_request(alloc, &parts) {
            Err(PartsFault::Refused(refusal)) => Some(refusal),
            _ => None,
        },
        Err(_) => None,
    }
}

/// Whether the option prints as this name.
fn prints(alloc: Global, option: OptionName, name: &str) -> bool {
    match format!(in alloc; "{option}") {
        Ok(text) => text.as_str() == name,
        Err(_) => false,
    }
}

#[test]
fn words_ask(rt: HostRuntime) {
    for (row, (words, crossings, list)) in ASKED.into_iter().enumerate() {
        assert!(rt; ask(rt.alloc(), words, crossings, list), "row {row}");
    }
}

#[test]
fn words_are_refused(rt: HostRuntime) {
    for (row, (words, wanted)) in REFUSED.into_iter().enumerate() {
        let found = refusal(rt.alloc(), words, [None; 3]);
        assert!(rt; found == Some(wanted), "row {row}");
    }
}

#[test]
fn foreign_options_are_named(rt: HostRuntime) {
    for (foreign, option) in FOREIGN {
        let found = refusal(rt.alloc(), ("bracket", &AT_41, None), foreign);
        assert!(rt; found == Some(PartsRefusal::Option { option }), "{option}");
    }
}

#[test]
fn options_print_their_names(rt: HostRuntime) {
    for (option, name) in OptionName::ALL.into_iter().zip(NAMES) {
        assert!(rt; prints(rt.alloc(), option, name), "{name}");
    }
}
