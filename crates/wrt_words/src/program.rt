//! The one command that `clap` is handed.

ghost use Rattle.std.specs.Prelude.{◌≡◌, IfOk, false};
ghost use Rattle.clap.specs.Words.{app_of, rule_of};
ghost use Rattle.wrt_words.specs.Program.{command_rule, flag_rule, numbers_rule, option_rule, program_app};

use clap::{Arg, ArgAction, Command};
use std::alloc::{AllocError, Global};

/// The command word, which has to stand.
fn command_arg<'a>(alloc: Global) -> Arg<'a>
    ensures rule { rule_of result ≡ command_rule }
    ensures local { result.global ≡ false }
{
    Arg::new(alloc, "command")
        .required(true)
        .action(ArgAction::Set)
}

/// All further words that are no options.
fn numbers_arg<'a>(alloc: Global) -> Arg<'a>
    ensures rule { rule_of result ≡ numbers_rule }
    ensures local { result.global ≡ false }
{
    Arg::new(alloc, "numbers").action(ArgAction::Append)
}

/// An option with one value.
fn option_arg<'a>(alloc: Global, name: &'a str) -> Arg<'a>
    ensures rule { rule_of result ≡ option_rule name.entry.now }
    ensures local { result.global ≡ false }
{
    Arg::new(alloc, name).long(name).action(ArgAction::Set)
}

/// An option without a value.
fn flag_arg<'a>(alloc: Global, name: &'a str) -> Arg<'a>
    ensures rule { rule_of result ≡ flag_rule name.entry.now }
    ensures local { result.global ≡ false }
{
    Arg::new(alloc, name).long(name).action(ArgAction::SetTrue)
}

/// The program's one command, with all its arguments.
pub(crate) fn program<'a>(alloc: Global) -> Result<Command<'a>, AllocError>
    ensures { IfOk result (λ program. app_of program ≡ program_app) }
{
    Command::new(alloc, "wrtcalc")
        .arg(command_arg(alloc))?
        .arg(numbers_arg(alloc))?
        .arg(option_arg(alloc, "colors"))?
        .arg(option_arg(alloc, "framing"))?
        .arg(option_arg(alloc, "workers"))?
        .arg(option_arg(alloc, "order"))?
        .arg(flag_arg(alloc, "turns"))?
        .arg(flag_arg(alloc, "even"))
}
