//! What stands between the brackets of a step: numbers, and the signs `+` and `-`.

ghost use Rattle.std.specs.Prelude.{◌≡◌, ◌≤◌, length, IfOk, IfErr};
ghost use Rattle.text_shapes.specs.Readers.{Found, Missed};
ghost use Rattle.script_reader.specs.StepTexts.{IsArgumentOf, IsNumberArgument, IsSign, IsSignArgument, argument_tokens, sign_tokens, some_argument};

use pd_reader::{Argument, read_number, skip, stands};
use planar_check::Sign;

/// An argument of a step, or the kind of one that is to be read.
#[derive(Clone, Copy, Debug)]
pub(crate) enum StepArgument {
    Number(u32),
    Sign(Sign),
}

impl StepArgument {
    /// The number that it is.
    pub(crate) fn number(self) -> u32
        requires { IsNumberArgument self }
        ensures { self ≡ StepArgument.Number result }
    {
        match self {
            StepArgument::Number(number) => number,
            StepArgument::Sign(_) => unreachable!(),
        }
    }

    /// The sign that it is.
    pub(crate) fn sign(self) -> Sign
        requires { IsSignArgument self }
        ensures { self ≡ StepArgument.Sign result }
    {
        match self {
            StepArgument::Number(_) => unreachable!(),
            StepArgument::Sign(sign) => sign,
        }
    }
}

/// Reads a sign, which may stand behind white space, and says where it ends, or the place at which none stands.
fn read_sign(bytes: &[u8], at: usize) -> Result<(Sign, usize), usize>
    requires { at ≤ length bytes.now }
    ensures ok { IfOk result (λ found. Found IsSign sign_tokens bytes.now at found.0 found.1) }
    ensures err { IfErr result (λ p. Missed IsSign sign_tokens bytes.now at p) }
{
    let start = skip(bytes, at);
    if stands(bytes, start, b'+') {
        return Ok((Sign::Plus, start + 1));
    }
    if stands(bytes, start, b'-') {
        return Ok((Sign::Minus, start + 1));
    }
    Err(start)
}

impl Argument for StepArgument {
    ghost is_of_kind = { IsArgumentOf };

    ghost tokens = { argument_tokens };

    ghost some = { some_argument };

    ghost use Rattle.script_reader.specs.StepTexts.{some_is_argument};

    ghost some_is_of_kind = { some_is_argument };

    fn read(self, bytes: &[u8], at: usize) -> Result<(StepArgument, usize), usize> {
        match self {
            StepArgument::Number(_) => {
                let (number, next) = read_number(bytes, at)?;
                Ok((StepArgument::Number(number), next))
            }
            StepArgument::Sign(_) => {
                let (sign, next) = read_sign(bytes, at)?;
                Ok((StepArgument::Sign(sign), next))
            }
        }
    }
}
