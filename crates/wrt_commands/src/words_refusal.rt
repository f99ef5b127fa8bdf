//! Refused words.

ghost use Rattle.std.specs.Prelude.{◌≡◌, Some};
ghost use Rattle.wrt_commands.specs.WordsRefusals.{status_of_words, text_of_words};

use crate::status::Status;
use std::fmt;
use wrt_request::PartsRefusal;

/// Why words ask for nothing.
#[derive(Clone, Copy, Debug, PartialEq, Eq)]
pub enum WordsRefusal {
    /// The words aren't a command line of the program's: an option is unknown, stands twice, lacks its
    /// value or has one too many, there is no command, or help is asked for.
    NoCommandLine,
    /// The parts of the command line ask for nothing.
    Parts(PartsRefusal),
}

impl WordsRefusal {
    /// The status that the refusal ends with.
    pub(crate) fn status(&self) -> Status
        ensures { result ≡ status_of_words self.now }
    {
        Status::Words
    }
}

impl fmt::Display for WordsRefusal {
    ghost output = { λ refusal. Some (text_of_words refusal) };

    fn fmt<W: fmt::Write>(&self, f: &mut fmt::Formatter<W>) -> fmt::Result {
        let parts = match self {
            WordsRefusal::NoCommandLine => return write!(f, "words refused"),
            WordsRefusal::Parts(parts) => parts,
        };
        match parts {
            PartsRefusal::UnknownCommand => write!(f, "unknown command"),
            PartsRefusal::Takes { numbers } => write!(f, "the command takes {numbers} numbers"),
            PartsRefusal::Number { position } => {
                write!(f, "number {position} is not a decimal number below 2^64")
            }
            PartsRefusal::Option { option } => {
                write!(f, "option --{option} does not belong to this command")
            }
            PartsRefusal::List { option } => write!(f, "list of --{option} refused"),
            PartsRefusal::Workers => write!(f, "workers are 1 to 64"),
            PartsRefusal::Crossings => write!(f, "crossings are 1 to 256"),
            PartsRefusal::ColorsAndFraming => {
                write!(f, "moves takes one of --colors and --framing")
            }
        }
    }
}
