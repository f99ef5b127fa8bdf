//! Numbers as the program's words write them.

ghost use Rattle.std.specs.Prelude.{◌≡◌, length, map, IfOk};
ghost use Rattle.wrt_request.specs.Decimals.{decimal_value, is_marked};
ghost use Rattle.wrt_request.specs.Numbers.{numbers_of};
ghost use Rattle.wrt_request.specs.Stages.{Reads};

use crate::fault::{PartsFault, PartsRefusal};
use std::alloc::Global;

/// Whether `+` stands first, or a `0` that isn't needed.
fn is_marked(text: &[u8]) -> bool
    ensures { result ≡ is_marked text.now }
{
    text.len() > 0 && (text[0] == b'+' || (text[0] == b'0' && text.len() > 1))
}

/// The number below 2^64 that the text writes in decimal, without a sign and without a needless `0`:
/// none for `041`, `+41` and `41a`. It takes no memory.
pub fn decimal(text: &str) -> Option<u64>
    ensures { result ≡ decimal_value text.now }
{
    if is_marked(text.as_bytes()) {
        None
    } else {
        text.parse::<u64>().ok()
    }
}

/// The numbers that the words write, as many as are wanted, or the first that writes none.
#[tactic(auto, unfolding(crate::specs::Numbers::numbers_of))]
pub(crate) fn read_numbers(
    alloc: Global,
    wanted: u32,
    texts: &[&str],
) -> Result<Vec<u64>, PartsFault>
    ensures numbers { Reads (λ numbers. numbers.items) (numbers_of wanted (map (λ s. s.now) texts.now)) result }
    ensures as_many { IfOk result (λ numbers. length numbers.items ≡ wanted) }
{
    if texts.len() != wanted as usize {
        return Err(PartsFault::Refused(PartsRefusal::Takes { numbers: wanted }));
    }
    let mut numbers = Vec::new(alloc);
    for text in texts {
        match decimal(text) {
            Some(number) => numbers.push(number)?,
            None => {
                return Err(PartsFault::Refused(PartsRefusal::Number {
                    position: numbers.len() as u32 + 1,
                }));
            }
        }
    }
    Ok(numbers)
}
