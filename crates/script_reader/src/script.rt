//! Scripts.

ghost use Rattle.std.specs.Prelude.{◌≡◌, ◌⊎◌, None, Some, IfOk, IfErr};
ghost use Rattle.std.specs.List.{AllByRecursion};
ghost use Rattle.pd_reader.specs.Items.{item_labels};
ghost use Rattle.pd_reader.specs.Diagrams.{IsLabel, labels};
ghost use Rattle.pd_reader.specs.declared.fault.DiagramFault.{DiagramFault};
ghost use Rattle.script_reader.specs.ScriptTexts.{script_refusal};

use crate::step::Step;
use pd_reader::{Diagram, DiagramFault, Item, MOST_ITEMS};
use std::alloc::Global;
use std::marker::Model;

/// The most steps of a script.
pub const MOST_STEPS: u32 = 1000;

/// A diagram, and at most `MOST_STEPS` steps that are to be made from it on, one after the other.
///
/// Contracts see a script as the items of its diagram and the list of its steps.
#[derive(Drop, Debug)]
pub struct Script {
    /// The first diagram.
    pub diagram: Diagram,
    /// The steps, in their order.
    pub steps: Vec<Step>,
}

impl Model for Script {
    ghost use Rattle.script_reader.specs.ScriptTexts.{ScriptParts};

    ghost Value = { ScriptParts };

    ghost view = { λ script. record { diagram = script.diagram; steps = script.steps.items } };

    ghost invariant = { λ script. Unit {0} };
}

impl Script {
    /// The script of a text, or the first reason against it: the number of items, the number of steps, a label.
    pub(crate) fn new(
        alloc: Global,
        items: &[Item],
        steps: Vec<Step>,
    ) -> Result<Script, DiagramFault>
        requires { AllByRecursion IsLabel (labels item_labels items.now) }
        ensures ok { IfOk result (λ script. (script ≡ record { diagram = items.now; steps = steps.items })
            × (script_refusal (record { diagram = items.now; steps = steps.items }) ≡ None)) }
        ensures err { IfErr result (λ fault. (fault ≡ DiagramFault.Memory) ⊎ (script_refusal (record { diagram = items.now; steps = steps.items }) ≡ Some fault)) }
    {
        if items.len() <= MOST_ITEMS as usize && steps.len() > MOST_STEPS as usize {
            return Err(DiagramFault::TooMany { limit: MOST_STEPS });
        }
        let diagram = Diagram::new(alloc, items)?;
        Ok(Script { diagram, steps })
    }
}
