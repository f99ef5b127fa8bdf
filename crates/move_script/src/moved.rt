//! A step made with a diagram.

ghost use Rattle.std.specs.Prelude.{◌≡◌, ◌⊎◌, ◌+◌, ◌*◌, ◌%◌, ◌≤◌, ◌++◌, false, Ok, Err, IfOk, IfErr};
ghost use Rattle.root_quantum.specs.Parameters.{Parameters};
ghost use Rattle.pd_reader.specs.Items.{item_labels};
ghost use Rattle.pd_reader.specs.Diagrams.{IsDiagram, labels};
ghost use Rattle.planar_check.specs.Components.{greatest, least_labels};
ghost use Rattle.diagram_brackets.specs.Brackets.{bracket};
ghost use Rattle.planar_check.specs.declared.sign.Sign.{Sign};
ghost use Rattle.diagram_moves.specs.Moves.{move};
ghost use Rattle.diagram_moves.specs.Scripts.{applied};
ghost use Rattle.diagram_moves.specs.Values.{factor_value};
ghost use Rattle.move_results.specs.Laws.{added};
ghost use Rattle.script_reader.specs.Steps.{is_slide};
ghost use Rattle.move_script.specs.Tables.{IsMade};

use crate::changed::{Changed, finished};
use crate::curl::{add_curl, undo_curl};
use crate::edges::fresh;
use crate::pull::pull;
use crate::push::push;
use crate::slide::slide_over;
use diagram_moves::{Factor, MoveFault};
use pd_reader::{Diagram, Item};
use planar_check::{Planar, check};
use script_reader::Step;
use std::alloc::{AllocError, Global};
use std::marker::Model;

/// The greatest label of a diagram that a step is made with.
pub const GREATEST_LABEL: u32 = 1_999_000;

/// What a step gives: the diagram, and the factor by which its bracket is multiplied.
///
/// Contracts see it as the items of the diagram with the factor.
#[derive(Drop, Debug)]
pub struct Moved {
    /// The result.
    pub diagram: Planar,
    /// The factor of the brackets.
    pub factor: Factor,
}

impl Model for Moved {
    ghost use Rattle.diagram_moves.specs.Steps.{Moved};

    ghost Value = { Moved };

    ghost view = { λ moved. record { items = moved.diagram; factor = moved.factor } };

    ghost invariant = { λ moved. Unit {0} };
}

/// The items with a loop of a new label behind them.
fn with_loop(alloc: Global, items: &[Item]) -> Result<Changed, MoveFault>
    requires { IsDiagram items.now }
    ensures { (sign : Sign) → IsMade (move items.now (Step.BlowUp sign)) result }
{
    let n = fresh(alloc, items)?;
    let mut all = Vec::from_slice(alloc, items)?;
    all.push(Item::Loop(n))?;
    finished(all, Factor { curl: 0, circle: 1 })
}

/// The items that a step gives, with its factor.
fn change(alloc: Global, diagram: &Planar, step: &Step) -> Result<Changed, MoveFault>
    requires { is_slide step.now ≡ false }
    ensures made { IsMade (move diagram.now step.now) result }
    ensures diagram { IsDiagram diagram.now }
{
    let items = diagram.diagram().items();
    match *step {
        Step::R2 { over, under } => push(alloc, diagram, over, under),
        Step::R2Undo { first, second } => pull(alloc, items, first, second),
        Step::R3 {
            first,
            second,
            third,
        } => slide_over(alloc, items, first, second, third),
        Step::Curl { edge, sign } => add_curl(alloc, diagram, edge, sign),
        Step::CurlUndo { crossing } => undo_curl(alloc, items, crossing),
        Step::BlowUp { sign: _ } => with_loop(alloc, items),
        Step::Slide { edge: _, along: _ } => unreachable!(),
    }
}

/// Makes a step with a planar diagram: the result with its factor. The step is no slide, which asks for framings.
///
/// What each step gives and why it is refused, `diagram_moves` defines. The refusals of each step in their order are:
/// - `R2`: `NoEdge` for either edge, `SameEdge`, `LoopEdge` for either, `NotSameFace`;
/// - `R2Undo`: `NoCrossing` for either crossing, `NotBigon`; `R3`: `NoCrossing` for each of three, `NotTriangle`;
/// - `Curl`: `NoEdge`; `CurlUndo`: `NoCrossing`, `NotCurl`; `BlowUp`: none;
/// - then `TooMany` past 256 items, which holds 256, and `NotPlanar` where the result isn't planar.
///
/// `Memory` is want of memory.
pub fn apply(alloc: Global, diagram: &Planar, step: &Step) -> Result<Moved, MoveFault>
    requires room { greatest (labels item_labels diagram.now) ≤ GREATEST_LABEL }
    requires step { is_slide step.now ≡ false }
    // The result and its factor are those of the definition.
    ensures made { IfOk result (λ moved. applied diagram.now step.now ≡ Ok moved) }
    // A refusal is the first one, but where memory runs out.
    ensures refused { IfErr result (λ fault. (fault ≡ MoveFault.Memory) ⊎ (applied diagram.now step.now ≡ Err fault)) }
    // The bracket is multiplied by the factor's value, for all parameters.
    ensures bracket { IfOk result (λ moved. (p : Parameters) → bracket p moved.items ≡ factor_value p moved.factor * bracket p diagram.now % p.modulus) }
    // The components keep their least labels, in their order, and `BlowUp` adds one at the end.
    ensures components { IfOk result (λ moved. least_labels moved.items ≡ least_labels diagram.now ++ added step.now diagram.now) }
    // The greatest label rises by at most 4, so that a script of 1,000 steps from a text on has room.
    ensures greatest { IfOk result (λ moved. greatest (labels item_labels moved.items) ≤ greatest (labels item_labels diagram.now) + 4) }
{
    let changed = change(alloc, diagram, step)?;
    let new = Diagram::of_paired(alloc, &changed.items)?;
    let planar = check(alloc, new)?;
    Ok(Moved {
        diagram: planar,
        factor: changed.factor,
    })
}
