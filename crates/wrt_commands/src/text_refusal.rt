//! Refused texts.

ghost use Rattle.std.specs.Prelude.{◌≡◌, Some};
ghost use Rattle.wrt_commands.specs.TextRefusals.{refusal_of_text, status_of_text, text_of_counted, text_of_text};

use crate::status::Status;
use pd_reader::TextFault;
use std::fmt;

/// What a limit of a text counts.
#[derive(Clone, Copy, Debug, PartialEq, Eq)]
pub enum Counted {
    /// The items of a diagram.
    Items,
    /// The steps of a script.
    Steps,
}

impl fmt::Display for Counted {
    ghost output = { λ counted. Some (text_of_counted counted) };

    fn fmt<W: fmt::Write>(&self, f: &mut fmt::Formatter<W>) -> fmt::Result {
        match self {
            Counted::Items => write!(f, "items"),
            Counted::Steps => write!(f, "steps"),
        }
    }
}

/// Why the bytes of an input are no text of a diagram. Bytes are counted from 0.
#[derive(Clone, Copy, Debug, PartialEq, Eq)]
pub enum TextRefusal {
    /// Up to byte `at` the input begins some text and no further, and a letter stands there.
    Head { at: usize },
    /// The same, and a digit stands there.
    Number { at: usize },
    /// The same, and another byte stands there, or the input ends.
    Text { at: usize },
    /// There are more than `limit` of what is counted.
    TooMany { limit: u32, counted: Counted },
    /// This label stands `count` times, and not twice. It is the least of these.
    Label { label: u32, count: u32 },
}

impl TextRefusal {
    /// The refusal of a text for this fault, whose limit is on what is counted; none for want of memory.
    pub(crate) fn of(fault: TextFault, counted: Counted) -> Option<TextRefusal>
        ensures { result ≡ refusal_of_text counted fault }
    {
        match fault {
            TextFault::Head { at } => Some(TextRefusal::Head { at }),
            TextFault::Number { at } => Some(TextRefusal::Number { at }),
            TextFault::Text { at } => Some(TextRefusal::Text { at }),
            TextFault::TooMany { limit } => Some(TextRefusal::TooMany { limit, counted }),
            TextFault::Label { label, count } => Some(TextRefusal::Label { label, count }),
            TextFault::Memory => None,
        }
    }

    /// The status that the refusal ends with.
    pub(crate) fn status(&self) -> Status
        ensures { result ≡ status_of_text self.now }
    {
        match self {
            TextRefusal::TooMany { .. } => Status::Limit,
            _ => Status::Input,
        }
    }
}

impl fmt::Display for TextRefusal {
    ghost output = { λ refusal. Some (text_of_text refusal) };

    fn fmt<W: fmt::Write>(&self, f: &mut fmt::Formatter<W>) -> fmt::Result {
        match self {
            TextRefusal::Head { at } => write!(f, "head refused at byte {at}"),
            TextRefusal::Number { at } => write!(f, "number refused at byte {at}"),
            TextRefusal::Text { at } => write!(f, "text refused at byte {at}"),
            TextRefusal::TooMany { limit, counted } => write!(f, "more than {limit} {counted}"),
            TextRefusal::Label { label, count } => write!(f, "label {label} stands {count} times"),
        }
    }
}
