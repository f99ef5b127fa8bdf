//! The parts of a command line.

/// The parts of a command line, each as it was written. They needn't ask for anything.
///
/// An option that isn't given is `None`, and one with the empty text behind its `=` is `Some("")`.
/// (This project's own.)
#[derive(Drop, Debug)]
pub struct Parts<'a> {
    /// The command: the first word that is neither an option nor an option's value.
    pub command: &'a str,
    /// The words behind the command that are neither options nor values of options, in their order.
    pub numbers: Vec<&'a str>,
    /// The value of `--colors`.
    pub colors: Option<&'a str>,
    /// The value of `--framing`.
    pub framing: Option<&'a str>,
    /// The value of `--workers`.
    pub workers: Option<&'a str>,
    /// The value of `--order`.
    pub order: Option<&'a str>,
    /// Whether `--turns` is given.
    pub turns: bool,
    /// Whether `--even` is given.
    pub even: bool,
}
