//! Lists of colours.

ghost use Rattle.std.specs.Prelude.{◌≡◌, None, Some, OnOk, IfErr};
ghost use Rattle.skein_network.specs.Refusals.{first_above, colour_refusal};

use crate::fault::CableFault;

/// The first colour of the list past the top.
fn first_above(colours: &[u32], top: u32) -> Option<u32>
    ensures { result ≡ first_above top colours.now }
{
    for colour in colours {
        if top < *colour {
            return Some(*colour);
        }
    }
    None
}

/// Refuses a list that hasn't as many colours as wanted, or has one past the top: `cable` refuses these for a link
/// diagram, whose components are wanted, before anything else. It takes no memory.
pub fn check_colours(colours: &[u32], wanted: u32, top: u32) -> Result<(), CableFault>
    ensures ok { OnOk result (colour_refusal top wanted colours.now ≡ None) }
    ensures refused { IfErr result (λ fault. colour_refusal top wanted colours.now ≡ Some fault) }
{
    if colours.len() != wanted as usize {
        return Err(CableFault::ColourCount {
            given: colours.len(),
            wanted,
        });
    }
    match first_above(colours, top) {
        Some(colour) => Err(CableFault::ColourTooLarge { colour, limit: top }),
        None => Ok(()),
    }
}
