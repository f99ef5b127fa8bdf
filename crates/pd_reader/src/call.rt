//! A word with arguments in brackets, `head[a,..,a]`.

ghost use Rattle.std.specs.Prelude.{◌≡◌, ◌<◌, ◌≤◌, length, IfOk, IfErr, List, ℕ, false, if◌then◌else◌};
ghost use Rattle.text_shapes.specs.Tokens.{is_space, number_tokens};
ghost use Rattle.text_shapes.specs.Shapes.{call, AreOf};
ghost use Rattle.text_shapes.specs.Reach.{IsWord};
ghost use Rattle.text_shapes.specs.Readers.{Found, Missed, OtherHeadsStop, separator_of};
ghost use Rattle.pd_reader.specs.Texts.{IsOfKind};

use crate::scan::{mark, read_number, word};

/// What may stand between the brackets of a call. A number is such an argument; where others stand
/// there too, as the signs of a script, a crate above has a type of its own.
///
/// The slot of an argument is a value too, which says of which kind the argument has to be.
pub trait Argument: Copy {
    /// The second is of the kind that the slot, the first, asks for.
    ghost is_of_kind: { Self → Self → Type 0 };

    /// The tokens that spell the argument.
    ghost tokens: { Self → List (List ℕ) };

    /// Some argument of the kind.
    ghost some: { Self → Self };

    /// Reads an argument of the slot's kind, which may stand behind white space, and says where it ends,
    /// or how far the bytes go on as one.
    fn read(self, bytes: &[u8], at: usize) -> Result<(Self, usize), usize>
        requires { at ≤ length bytes.now }
        ensures ok { IfOk result (λ found. Found (is_of_kind self) tokens bytes.now at found.0 found.1) }
        ensures err { IfErr result (λ p. Missed (is_of_kind self) tokens bytes.now at p) };

    ghost some_is_of_kind: { (slot : Self) → is_of_kind slot (some slot) };
}

impl Argument for u32 {
    ghost is_of_kind = { IsOfKind };

    ghost tokens = { number_tokens };

    ghost some = { λ _. 1 };

    ghost use Rattle.text_shapes.specs.Tokens.{one_is_a_number};

    ghost some_is_of_kind = { λ _. one_is_a_number };

    fn read(self, bytes: &[u8], at: usize) -> Result<(u32, usize), usize> {
        read_number(bytes, at)
    }
}

/// The mark before the argument `i`: the bracket that opens before the first, else a comma.
#[tactic(auto, unfolding(text_shapes::specs::Tokens::is_space))]
fn separator(i: usize) -> u8
    ensures mark { result ≡ separator_of i }
    ensures token { is_space result ≡ false }
{
    if i == 0 { b'[' } else { b',' }
}

/// Reads `head[a,..,a]`, with an argument for each slot, which takes the slot's place. It says where the
/// call ends, or how far the bytes go on as one; of the slots nothing is said then.
pub fn read_call<A: Argument>(
    bytes: &[u8],
    at: usize,
    head: &[u8],
    slots: &mut [A],
) -> Result<usize, usize>
    requires within { at ≤ length bytes.now }
    requires word { IsWord head.now }
    requires some { 0 < length slots.old }
    ensures ok { IfOk result (λ next. Found (AreOf A.is_of_kind slots.old) (call A.tokens head.now) bytes.now at slots.new next) }
    ensures err { IfErr result (λ p. Missed (AreOf A.is_of_kind slots.old) (call A.tokens head.now) bytes.now at p) }
    ensures others { IfOk result (λ next. OtherHeadsStop A.tokens bytes.now at head.now next) }
{
    let mut place = word(bytes, at, head)?;
    for i in 0..slots.len() {
        let slot = slots[i];
        let start = mark(bytes, place, separator(i))?;
        let (argument, after) = slot.read(bytes, start)?;
        slots[i] = argument;
        place = after;
    }
    mark(bytes, place, b']')
}
