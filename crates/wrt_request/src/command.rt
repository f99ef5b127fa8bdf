//! The table of the program's commands: their names, how many numbers each takes and which options belong to it.

ghost use Rattle.std.specs.Prelude.{◌≡◌};
ghost use Rattle.wrt_parts.specs.Texts.{texts_of};
ghost use Rattle.wrt_request.specs.Commands.{command_of, has_option, check_options, row_of};

use crate::fault::PartsRefusal;
use crate::option_name::OptionName;
use wrt_parts::Parts;

/// A command.
#[derive(Clone, Copy, Debug, PartialEq, Eq)]
pub(crate) enum Command {
    /// `bracket M A R`
    Bracket,
    /// `colored M A R`
    Colored,
    /// `net M A R`
    Net,
    /// `torus N M A R`
    Torus,
    /// `wrt M A R`
    Wrt,
    /// `moves M A R`
    Moves,
    /// `braid M A R`
    Braid,
    /// `tv M A R`
    Tetrahedra,
}

/// For each option, whether it belongs to a command.
#[derive(Clone, Copy)]
pub(crate) struct Options {
    pub(crate) colors: bool,
    pub(crate) framing: bool,
    pub(crate) workers: bool,
    pub(crate) order: bool,
    pub(crate) turns: bool,
    pub(crate) even: bool,
}

/// A row of the table of commands.
#[derive(Clone, Copy)]
pub(crate) struct Row {
    /// The command's name.
    name: &'static str,
    /// How many numbers stand before M, A and R.
    own_numbers: u32,
    /// The options that belong to it.
    options: Options,
}

/// No option.
const NO_OPTIONS: Options = Options {
    colors: false,
    framing: false,
    workers: false,
    order: false,
    turns: false,
    even: false,
};

/// `--order` and `--turns`.
const ORDER_AND_TURNS: Options = Options {
    order: true,
    turns: true,
    ..NO_OPTIONS
};

/// `--colors`, `--order` and `--turns`.
const COLORS_AND_ORDER: Options = Options {
    colors: true,
    ..ORDER_AND_TURNS
};

/// `--framing`, `--workers`, `--order`, `--turns` and `--even`.
const SURGERY: Options = Options {
    framing: true,
    workers: true,
    even: true,
    ..ORDER_AND_TURNS
};

/// `--colors` and `--framing`.
const COLORS_OR_FRAMING: Options = Options {
    colors: true,
    framing: true,
    ..NO_OPTIONS
};

impl Row {
    /// The row of a command with this name, so many numbers of its own and these options.
    fn new(name: &'static str, own_numbers: u32, options: Options) -> Row
        ensures name { result.name.now ≡ name.now }
        ensures own_numbers { result.own_numbers ≡ own_numbers }
        ensures options { result.options ≡ options }
    {
        Row {
            name,
            own_numbers,
            options,
        }
    }
}

impl Command {
    /// All commands.
    const ALL: [Command; 8] = [
        Command::Bracket,
        Command::Colored,
        Command::Net,
        Command::Torus,
        Command::Wrt,
        Command::Moves,
        Command::Braid,
        Command::Tetrahedra,
    ];

    /// The command's row of the table.
    fn row(self) -> Row
        ensures name { result.name.now ≡ (row_of self).name }
        ensures own_numbers { result.own_numbers ≡ (row_of self).own_numbers }
        ensures options { result.options ≡ (row_of self).options }
    {
        match self {
            Command::Bracket => Row::new("bracket", 0, ORDER_AND_TURNS),
            Command::Colored => Row::new("colored", 0, COLORS_AND_ORDER),
            Command::Net => Row::new("net", 0, COLORS_AND_ORDER),
            Command::Torus => Row::new("torus", 1, ORDER_AND_TURNS),
            Command::Wrt => Row::new("wrt", 0, SURGERY),
            Command::Moves => Row::new("moves", 0, COLORS_OR_FRAMING),
            Command::Braid => Row::new("braid", 0, NO_OPTIONS),
            Command::Tetrahedra => Row::new("tv", 0, NO_OPTIONS),
        }
    }

    /// The command of this name.
    pub(crate) fn named(name: &str) -> Result<Command, PartsRefusal>
        ensures { result ≡ command_of name.now }
    {
        for command in Command::ALL {
            if name == command.row().name {
                return Ok(command);
            }
        }
        Err(PartsRefusal::UnknownCommand)
    }

    /// How many numbers stand before M, A and R: at most one.
    pub(crate) fn own_numbers(self) -> u32
        ensures { result ≡ (row_of self).own_numbers }
    {
        self.row().own_numbers
    }

    /// Whether the option belongs to the command.
    fn has_option(self, option: OptionName) -> bool
        ensures { result ≡ has_option (row_of self).options option }
    {
        let options = self.row().options;
        match option {
            OptionName::Colors => options.colors,
            OptionName::Framing => options.framing,
            OptionName::Workers => options.workers,
            OptionName::Order => options.order,
            OptionName::Turns => options.turns,
            OptionName::Even => options.even,
        }
    }

    /// Whether all options among the parts belong to the command, or the first that doesn't.
    pub(crate) fn check_options(self, parts: &Parts) -> Result<(), PartsRefusal>
        ensures { result ≡ check_options self (texts_of parts.now) }
    {
        for option in OptionName::ALL {
            if option.is_given(parts) && !self.has_option(option) {
                return Err(PartsRefusal::Option { option });
            }
        }
        Ok(())
    }
}
