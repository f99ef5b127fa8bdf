//! The parts of the words that `clap` matched.

ghost use Rattle.std.specs.Prelude.{◌≡◌, IfOk, map};
ghost use Rattle.clap.specs.Words.{found_of, rows_of};
ghost use Rattle.wrt_parts.specs.Texts.{texts_of};
ghost use Rattle.wrt_words.specs.Matched.{is_set, numbers_in, texts_in};

use clap::ArgMatches;
use std::alloc::{AllocError, Global};
use wrt_parts::Parts;

/// Whether the flag is given: `clap` then has the value `true` for it.
fn has_flag(matches: &ArgMatches, name: &str) -> bool
    ensures { result ≡ is_set name.now (rows_of (found_of matches.now)) }
{
    match matches.get_str(name) {
        Some(text) => text == "true",
        None => false,
    }
}

/// The words behind the command.
fn numbers<'a>(alloc: Global, matches: &ArgMatches<'a>) -> Result<Vec<&'a str>, AllocError>
    ensures { IfOk result (λ numbers. map (λ s. s.now) numbers.items ≡ numbers_in (rows_of (found_of matches.now))) }
{
    match matches.get_strs("numbers") {
        Some(texts) => Vec::from_slice(alloc, texts),
        None => Ok(Vec::new(alloc)),
    }
}

/// The parts that were matched. The command has to stand, so it isn't missing where `clap` gives
/// matches; for other matches it is the empty text.
pub(crate) fn matched_parts<'a>(
    alloc: Global,
    matches: &ArgMatches<'a>,
) -> Result<Parts<'a>, AllocError>
    ensures { IfOk result (λ parts. texts_of parts ≡ texts_in (rows_of (found_of matches.now))) }
{
    let numbers = numbers(alloc, matches)?;
    Ok(Parts {
        command: matches.get_str("command").unwrap_or(""),
        numbers,
        colors: matches.get_str("colors"),
        framing: matches.get_str("framing"),
        workers: matches.get_str("workers"),
        order: matches.get_str("order"),
        turns: has_flag(matches, "turns"),
        even: has_flag(matches, "even"),
    })
}
