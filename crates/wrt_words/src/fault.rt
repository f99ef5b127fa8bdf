//! Why words have no parts.

/// Why words have no parts.
#[derive(Clone, Copy, Debug, PartialEq, Eq)]
pub enum WordsFault {
    /// `clap` doesn't take the words: an option is unknown, stands twice, lacks its value or has one too
    /// many, there is no command, or help is asked for.
    Refused,
    /// Memory ran out.
    Memory,
}
