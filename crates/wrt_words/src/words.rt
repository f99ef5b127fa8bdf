//! Words to parts.

ghost use Rattle.std.specs.Prelude.{◌≡◌, ◌≢◌, IfOk, Err, true, map};
ghost use Rattle.wrt_words.specs.Words.{AnswersWords, command_line, line_texts, takes_line};

use crate::fault::WordsFault;
use crate::matched::matched_parts;
use crate::program::program;
use clap::error::ErrorKind;
use std::alloc::{AllocError, Global};
use wrt_parts::Parts;

/// The command line of the words after the program's name: the word `wrtcalc`, and then the words.
/// `AllocError` is want of memory.
pub fn command_line<'a>(alloc: Global, words: &[&'a str]) -> Result<Vec<&'a str>, AllocError>
    ensures { IfOk result (λ line. map (λ s. s.now) line.items ≡ command_line (map (λ s. s.now) words.now)) }
{
    let mut line = Vec::new(alloc);
    line.push("wrtcalc")?;
    line.extend_from_slice(words)?;
    Ok(line)
}

/// The parts of the command line, of which the first word is the program's name: those that `clap`
/// matches with the program's one command.
///
/// `Refused` comes only where `clap` has a fault against the words, and not where its definition takes
/// them. `Memory` is want of memory.
pub fn read_words<'a>(alloc: Global, line: &'a [&'a str]) -> Result<Parts<'a>, WordsFault>
    // The answer is that of the definition, but for want of memory.
    ensures answer { AnswersWords (line_texts (map (λ s. s.now) line.entry.now)) result }

    // Where the definition takes the words, they aren't refused.
    ensures taken { takes_line (map (λ s. s.now) line.entry.now) ≡ true → result ≢ Err WordsFault.Refused }
{
    let program = match program(alloc) {
        Ok(program) => program,
        Err(_) => return Err(WordsFault::Memory),
    };
    match program.try_get_matches_from(line) {
        Ok(matches) => match matched_parts(alloc, &matches) {
            Ok(parts) => Ok(parts),
            Err(_) => Err(WordsFault::Memory),
        },
        Err(error) => match error.kind() {
            ErrorKind::OutOfMemory => Err(WordsFault::Memory),
            _ => Err(WordsFault::Refused),
        },
    }
}
