//! Diagrams whose components have colours.

ghost use Rattle.std.specs.Prelude.{◌≡◌, ◌⊎◌, ◌+◌, ◌≤◌, false, length, Ok, Err, IfOk, IfErr};
ghost use Rattle.diagram_moves.specs.declared.fault.MoveFault.TheVariants.{Memory};
ghost use Rattle.planar_check.specs.Components.{least_labels};
ghost use Rattle.root_quantum.specs.Parameters.{Parameters};
ghost use Rattle.script_reader.specs.Steps.{is_slide};
ghost use Rattle.script_values.specs.Colours.{ColouredDiagram, HasFit, colours_after, moved_coloured, top_label};

use diagram_moves::MoveFault;
use move_script::{GREATEST_LABEL, apply_coloured};
use planar_check::Planar;
use script_reader::Step;
use std::alloc::{AllocError, Global};
use std::marker::Model;

/// A planar diagram with a colour for each of its components, that of component 1 first.
///
/// Contracts see it as the items of the diagram and the list of the colours.
#[derive(Drop, Debug)]
pub struct Coloured {
    planar: Planar,
    colours: Vec<u32>,
}

impl Model for Coloured {
    ghost use Rattle.std.specs.Prelude.{◌≡◌, length};
    ghost use Rattle.planar_check.specs.Components.{least_labels};
    ghost use Rattle.script_values.specs.Colours.{ColouredDiagram};

    ghost Value = { ColouredDiagram };

    ghost view = { λ coloured. record { items = coloured.planar; colours = coloured.colours.items } };

    ghost invariant = { λ coloured. length coloured.colours.items ≡ length (least_labels coloured.planar) };
}

/// The colours after a step: each component keeps its own, and a blow-up adds one of colour 1.
fn colours_after(alloc: Global, colours: &[u32], step: &Step) -> Result<Vec<u32>, AllocError>
    ensures { IfOk result (λ all. all.items ≡ colours_after colours.now step.now) }
{
    let mut all = Vec::from_slice(alloc, colours)?;
    if let Step::BlowUp { sign: _ } = step {
        all.push(1)?;
    }
    Ok(all)
}

impl Coloured {
    /// The diagram with these colours, as many as it has components.
    pub fn new(planar: Planar, colours: Vec<u32>) -> Coloured
        requires { length colours.items ≡ length (least_labels planar) }
        ensures { result ≡ record { items = planar; colours = colours.items } }
    {
        Coloured { planar, colours }
    }

    /// The planar diagram.
    pub fn planar(&self) -> &Planar
        ensures { result.now ≡ self.now.items }
    {
        &self.planar
    }

    /// The colours.
    pub fn colours(&self) -> &[u32]
        ensures colours { result.now ≡ self.now.colours }
        ensures count { length self.now.colours ≡ length (least_labels self.now.items) }
    {
        &self.colours
    }

    /// The diagram after a step that is no slide, or why the step is refused.
    pub(crate) fn apply(&self, alloc: Global, step: &Step) -> Result<Coloured, MoveFault>
        requires room { top_label self.now.items ≤ GREATEST_LABEL }
        requires step { is_slide step.now ≡ false }
        ensures made { IfOk result (λ next. moved_coloured self.now step.now ≡ Ok next) }
        ensures refused { IfErr result (λ fault. (fault ≡ Memory) ⊎ (moved_coloured self.now step.now ≡ Err fault)) }
        ensures greatest { IfOk result (λ next. top_label next.items ≤ top_label self.now.items + 4) }
        // Colours that are not past the top stay so.
        ensures fit { IfOk result (λ next. (p : Parameters) → HasFit p self.now → HasFit p next) }
    {
        let moved = apply_coloured(alloc, &self.planar, &self.colours, step)?;
        let colours = colours_after(alloc, &self.colours, step)?;
        Ok(Coloured {
            planar: moved.diagram,
            colours,
        })
    }
}
