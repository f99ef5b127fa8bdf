//! Steps made with framed diagrams.

ghost use Rattle.std.specs.Prelude.{◌≡◌, ◌⊎◌, ◌+◌, ◌<◌, ◌≤◌, ◌++◌, false, Ok, Err, None, length, IfOk, IfErr};
ghost use Rattle.root_quantum.specs.Parameters.{Parameters};
ghost use Rattle.pd_reader.specs.Items.{item_labels};
ghost use Rattle.pd_reader.specs.Diagrams.{labels};
ghost use Rattle.planar_check.specs.Components.{greatest, least_labels};
ghost use Rattle.planar_check.specs.Framings.{FramedDiagram, IsFramed};
ghost use Rattle.planar_check.specs.Tables.{sign_value};
ghost use Rattle.coloured_values.specs.Laws.{blown_up};
ghost use Rattle.coloured_values.specs.Surgery.{HasSurgeryValue, surgery};
ghost use Rattle.diagram_moves.specs.Rewriting.{fresh};
ghost use Rattle.move_results.specs.Laws.{added};
ghost use Rattle.script_reader.specs.Steps.{is_slide};
ghost use Rattle.move_script.specs.FramedMoves.{applied_framed, framings_after};

use crate::moved::{GREATEST_LABEL, apply};
use diagram_moves::MoveFault;
use pd_reader::MOST_ITEMS;
use planar_check::{Framed, FramedFault, Planar, Sign};
use script_reader::Step;
use std::alloc::{AllocError, Global};

/// The sign as a framing.
fn framing(sign: Sign) -> i64
    ensures { result ≡ sign_value sign }
{
    match sign {
        Sign::Plus => 1,
        Sign::Minus => -1,
    }
}

/// The framings after a step: each component keeps its own, and a blow-up adds one.
fn framings_after(alloc: Global, framed: &Framed, step: &Step) -> Result<Vec<i64>, AllocError>
    ensures framings { IfOk result (λ all. all.items ≡ framings_after framed.now step.now) }
    ensures framed { IsFramed framed.now }
{
    let count = framed.planar().components();
    let mut all = Vec::new(alloc);
    for index in 0..count {
        all.push(framed.framing(index + 1))?;
    }
    if let Step::BlowUp { sign } = step {
        all.push(framing(*sign))?;
    }
    Ok(all)
}

/// The diagram with framings that fit it.
fn framed_with(alloc: Global, planar: Planar, framings: &[i64]) -> Result<Framed, AllocError>
    requires { IsFramed (record { items = planar; framings = framings.now }) }
    ensures { IfOk result (λ framed. framed ≡ record { items = planar; framings = framings.now }) }
{
    match Framed::new(alloc, planar, framings) {
        Ok(framed) => Ok(framed),
        Err(FramedFault::Memory) => Err(AllocError),
        Err(
            FramedFault::Count {
                given: _,
                wanted: _,
            },
        ) => unreachable!(),
        Err(FramedFault::Size { component: _ }) => unreachable!(),
    }
}

/// Makes a step with a framed diagram: `blow_up` for `BlowUp`, and else `apply`, where each component keeps its
/// number and its framing. The step is no slide, which `slide` of slide_band makes.
///
/// The refusals are those of `apply`.
pub fn apply_framed(alloc: Global, framed: &Framed, step: &Step) -> Result<Framed, MoveFault>
    requires room { greatest (labels item_labels framed.now.items) ≤ GREATEST_LABEL }
    requires step { is_slide step.now ≡ false }
    // The result is that of the definition: the move's, with the framings of the components.
    ensures made { IfOk result (λ moved. applied_framed framed.now step.now ≡ Ok moved) }
    // A refusal is the first one, but where memory runs out.
    ensures refused { IfErr result (λ fault. (fault ≡ MoveFault.Memory) ⊎ (applied_framed framed.now step.now ≡ Err fault)) }
    // The components keep their least labels, in their order, and `BlowUp` adds one at the end.
    ensures components { IfOk result (λ moved. least_labels moved.items ≡ least_labels framed.now.items ++ added step.now framed.now.items) }
    ensures greatest { IfOk result (λ moved. greatest (labels item_labels moved.items) ≤ greatest (labels item_labels framed.now.items) + 4) }
{
    let moved = apply(alloc, framed.planar(), step)?;
    let framings = framings_after(alloc, framed, step)?;
    Ok(framed_with(alloc, moved.diagram, &framings)?)
}

/// Adds a closed curve without crossings, with the next label and the framing +1 or -1, as last component.
///
/// `TooMany` holds 256 and comes exactly where there are 256 items. `Memory` is want of memory.
pub fn blow_up(alloc: Global, framed: &Framed, sign: Sign) -> Result<Framed, MoveFault>
    requires { greatest (labels item_labels framed.now.items) ≤ GREATEST_LABEL }
    ensures made { IfOk result (λ blown. blown ≡ blown_up framed.now (fresh framed.now.items) (sign_value sign)) }
    ensures room { IfOk result (λ _. length framed.now.items < 256) }
    ensures refused { IfErr result (λ fault. (fault ≡ MoveFault.Memory) ⊎ ((fault ≡ MoveFault.TooMany 256) × (256 ≤ length framed.now.items))) }
    // The surgery value is kept, for all parameters for which it exists (Kirby's first move).
    ensures surgery { IfOk result (λ blown. (p : Parameters) → HasSurgeryValue p blown → surgery p blown ≡ surgery p framed.now) }
{
    let items = framed.planar().diagram().items();
    if items.len() >= MOST_ITEMS as usize {
        return Err(MoveFault::TooMany { limit: MOST_ITEMS });
    }
    apply_framed(alloc, framed, &Step::BlowUp { sign })
}
