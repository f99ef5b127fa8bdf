//! The options of the program's commands.

ghost use Rattle.std.specs.Prelude.{◌≡◌, Some};
ghost use Rattle.wrt_request.specs.Options.{is_given, name_of};
ghost use Rattle.wrt_parts.specs.Texts.{texts_of};

use std::fmt;
use wrt_parts::Parts;

/// An option, in the order in which options are looked at. It prints as its name, without `--`.
#[derive(Clone, Copy, Debug, PartialEq, Eq)]
pub enum OptionName {
    /// `--colors`: a colour for each component or label.
    Colors,
    /// `--framing`: a framing for each component.
    Framing,
    /// `--workers`: how many workers share the sum over colourings.
    Workers,
    /// `--order`: the order in which crossings are taken.
    Order,
    /// `--turns`: report the turns too.
    Turns,
    /// `--even`: even colours alone.
    Even,
}

impl fmt::Display for OptionName {
    ghost output = { λ option. Some (name_of option) };

    fn fmt<W: fmt::Write>(&self, f: &mut fmt::Formatter<W>) -> fmt::Result {
        f.write_str(match self {
            OptionName::Colors => "colors",
            OptionName::Framing => "framing",
            OptionName::Workers => "workers",
            OptionName::Order => "order",
            OptionName::Turns => "turns",
            OptionName::Even => "even",
        })
    }
}

impl OptionName {
    /// All options, in the order in which they are looked at.
    pub(crate) const ALL: [OptionName; 6] = [
        OptionName::Colors,
        OptionName::Framing,
        OptionName::Workers,
        OptionName::Order,
        OptionName::Turns,
        OptionName::Even,
    ];

    /// Whether the option is among the parts.
    pub(crate) fn is_given(self, parts: &Parts) -> bool
        ensures { result ≡ is_given (texts_of parts.now) self }
    {
        match self {
            OptionName::Colors => parts.colors.is_some(),
            OptionName::Framing => parts.framing.is_some(),
            OptionName::Workers => parts.workers.is_some(),
            OptionName::Order => parts.order.is_some(),
            OptionName::Turns => parts.turns,
            OptionName::Even => parts.even,
        }
    }
}
