//! Diagrams of a script, each with what its value is about.

ghost use Rattle.std.specs.Prelude.{◌≡◌, ◌⊎◌, ◌+◌, ◌≤◌, false, None, length, Ok, Err, IfOk, IfErr};
ghost use Rattle.frontier_laws.specs.Orders.{listed_of};
ghost use Rattle.planar_check.specs.Components.{least_labels};
ghost use Rattle.root_quantum.specs.Parameters.{Parameters, top_colour};
ghost use Rattle.script_reader.specs.Steps.{is_slide};
ghost use Rattle.skein_network.specs.Refusals.{colour_refusal};
ghost use Rattle.wrt_values.specs.Coloured.{coloured_value};
ghost use Rattle.wrt_values.specs.Surgery.{surgery_value};
ghost use Rattle.wrt_values.specs.Values.{Gives, bracket_value};
ghost use Rattle.script_values.specs.declared.step_fault.StepFault.TheVariants.{Memory};
ghost use Rattle.script_values.specs.Drawings.{ColoursFit, greatest_label, made, value_in};

use crate::coloured::Coloured;
use crate::step_fault::StepFault;
use crate::step_refusal::StepRefusal;
use colour_share::Gate;
use frontier_sweep::{Chooser, Order};
use move_script::{GREATEST_LABEL, apply, apply_framed};
use planar_check::{Framed, Planar};
use root_quantum::Params;
use script_reader::Step;
use slide_band::slide;
use std::alloc::Global;
use std::thread::Threads;
use wrt_values::{Value, ValueFault, bracket_value, coloured_value, surgery_value};

/// A diagram of a script, with what its value is about.
#[derive(Drop, Debug)]
pub enum Drawing {
    /// A diagram alone: its value is its bracket.
    Plain(Planar),
    /// A diagram with framings: its value is its surgery value.
    Framed(Framed),
    /// A diagram with colours: its value is the one with these colours and the diagram's own framing.
    Coloured(Coloured),
}

/// The most new labels of a step: a slide raises the greatest label by at most so much, any other step by 4.
pub const NEW_LABELS: u32 = 512;

/// The bracket of a diagram whose crossings are taken in the order in which they are listed.
fn listed_bracket(alloc: Global, params: &Params, planar: &Planar) -> Result<Value, ValueFault>
    ensures { Gives (bracket_value listed_of params.now planar.now) result }
{
    let listed = Chooser::keep(Order::Listed);
    bracket_value(alloc, params, planar, &listed)
}

/// The surgery value of a framed diagram whose crossings are taken in the order in which they are listed, by one worker.
fn listed_surgery<R: Threads + Sync, G: Gate + Sync>(
    rt: &R,
    alloc: Global,
    params: &Params,
    framed: &Framed,
    gate: &G,
) -> Result<Value, ValueFault>
    ensures { Gives (surgery_value listed_of params.now framed.now) result }
{
    let listed = Chooser::keep(Order::Listed);
    surgery_value(rt, alloc, params, framed, &listed, 1, gate)
}

/// The value of a diagram with colours whose crossings are taken in the order in which they are listed.
fn listed_coloured(
    alloc: Global,
    params: &Params,
    planar: &Planar,
    colours: &[u32],
) -> Result<Value, ValueFault>
    requires { colour_refusal (top_colour params.now) (length (least_labels planar.now)) colours.now ≡ None }
    ensures { Gives (coloured_value listed_of params.now planar.now colours.now) result }
{
    let listed = Chooser::keep(Order::Listed);
    coloured_value(alloc, params, planar, colours, &listed)
}

impl Drawing {
    /// The drawing after a move, or why it is refused.
    fn after_move(&self, alloc: Global, step: &Step) -> Result<Drawing, StepFault>
        requires room { greatest_label self.now ≤ GREATEST_LABEL }
        requires step { is_slide step.now ≡ false }
        ensures made { IfOk result (λ next. made self.now step.now ≡ Ok next) }
        ensures refused { IfErr result (λ fault. (fault ≡ Memory) ⊎ (made self.now step.now ≡ Err fault)) }
        ensures greatest { IfOk result (λ next. greatest_label next ≤ greatest_label self.now + NEW_LABELS) }
        ensures fit { IfOk result (λ next. (p : Parameters) → ColoursFit p self.now → ColoursFit p next) }
    {
        match self {
            Drawing::Plain(planar) => Ok(Drawing::Plain(apply(alloc, planar, step)?.diagram)),
            Drawing::Framed(framed) => Ok(Drawing::Framed(apply_framed(alloc, framed, step)?)),
            Drawing::Coloured(coloured) => Ok(Drawing::Coloured(coloured.apply(alloc, step)?)),
        }
    }

    /// The drawing after a slide, or why it is refused.
    fn after_slide(&self, alloc: Global, edge: u32, along: u32) -> Result<Drawing, StepFault>
        requires room { greatest_label self.now ≤ GREATEST_LABEL }
        ensures made { IfOk result (λ next. made self.now (Step.Slide edge along) ≡ Ok next) }
        ensures refused { IfErr result (λ fault. (fault ≡ Memory) ⊎ (made self.now (Step.Slide edge along) ≡ Err fault)) }
        ensures greatest { IfOk result (λ next. greatest_label next ≤ greatest_label self.now + NEW_LABELS) }
        ensures fit { IfOk result (λ next. (p : Parameters) → ColoursFit p self.now → ColoursFit p next) }
    {
        match self {
            Drawing::Framed(framed) => Ok(Drawing::Framed(
                slide(alloc, framed, edge, along)?.framed,
            )),
            Drawing::Plain(_) | Drawing::Coloured(_) => {
                Err(StepFault::Refused(StepRefusal::SlideNeedsFramings))
            }
        }
    }

    /// The drawing after a step, or why the step is refused.
    pub(crate) fn apply(&self, alloc: Global, step: &Step) -> Result<Drawing, StepFault>
        requires room { greatest_label self.now ≤ GREATEST_LABEL }
        ensures made { IfOk result (λ next. made self.now step.now ≡ Ok next) }
        ensures refused { IfErr result (λ fault. (fault ≡ Memory) ⊎ (made self.now step.now ≡ Err fault)) }
        ensures greatest { IfOk result (λ next. greatest_label next ≤ greatest_label self.now + NEW_LABELS) }
        // Colours that are not past the top stay so.
        ensures fit { IfOk result (λ next. (p : Parameters) → ColoursFit p self.now → ColoursFit p next) }
    {
        match *step {
            Step::Slide { edge, along } => self.after_slide(alloc, edge, along),
            _ => self.after_move(alloc, step),
        }
    }

    /// The value of the drawing: the crossings are taken in the order in which they are listed, and sums over colourings by one worker.
    pub(crate) fn value<R: Threads + Sync, G: Gate + Sync>(
        &self,
        rt: &R,
        alloc: Global,
        params: &Params,
        gate: &G,
    ) -> Result<Value, ValueFault>
        requires { ColoursFit params.now self.now }
        ensures { Gives (value_in params.now self.now) result }
    {
        match self {
            Drawing::Plain(planar) => listed_bracket(alloc, params, planar),
            Drawing::Framed(framed) => listed_surgery(rt, alloc, params, framed, gate),
            Drawing::Coloured(coloured) => {
                listed_coloured(alloc, params, coloured.planar(), coloured.colours())
            }
        }
    }
}
