//! Why a step is refused, apart from want of memory.

ghost use Rattle.std.specs.Prelude.{◌≡◌, Some};
ghost use Rattle.script_values.specs.Refusals.{text_of_step};

use std::fmt;

/// Why a step is refused: a move, or a slide.
#[derive(Clone, Copy, Debug, PartialEq, Eq)]
pub enum StepRefusal {
    /// The label is not in the diagram.
    NoEdge { edge: u32 },
    /// There is no crossing with this number.
    NoCrossing { crossing: u32 },
    /// Both edges are one.
    SameEdge,
    /// The label is a loop's.
    LoopEdge { edge: u32 },
    /// No face has a place of both edges.
    NotSameFace,
    /// There is no bigon to remove.
    NotBigon,
    /// There is no triangle with a strand on top.
    NotTriangle,
    /// There is no curl to remove.
    NotCurl,
    /// The result has more items than `limit`.
    TooMany { limit: u32 },
    /// The result has this many faces, and a planar one would have `wanted`.
    NotPlanar { faces: u32, wanted: u32 },
    /// The box of this component, of a coloured diagram, lies inside the move.
    AnchorInside { component: u32 },
    /// A slide is made with framed diagrams alone.
    SlideNeedsFramings,
    /// Both edges of a slide are on one component.
    SameComponent,
    /// The sum of the signs between these two components is odd, so that a diagram can't be slid.
    OddSigns { first: u32, second: u32 },
    /// The framing that a slide gives this component is past 2^60 in size.
    FramingSize { component: u32 },
}

/// The line of the refusal, without the step's number before it.
impl fmt::Display for StepRefusal {
    ghost output = { λ refusal. Some (text_of_step refusal) };

    fn fmt<W: fmt::Write>(&self, f: &mut fmt::Formatter<W>) -> fmt::Result {
        match self {
            StepRefusal::NoEdge { edge } => write!(f, "no edge {edge}"),
            StepRefusal::NoCrossing { crossing } => write!(f, "no crossing {crossing}"),
            StepRefusal::SameEdge => write!(f, "one edge is named twice"),
            StepRefusal::LoopEdge { edge } => write!(f, "edge {edge} is a loop"),
            StepRefusal::NotSameFace => write!(f, "no common face"),
            StepRefusal::NotBigon => write!(f, "no bigon to remove"),
            StepRefusal::NotTriangle => write!(f, "no triangle with a strand on top"),
            StepRefusal::NotCurl => write!(f, "no curl to remove"),
            StepRefusal::TooMany { limit } => write!(f, "more than {limit} items"),
            StepRefusal::NotPlanar { faces, wanted } => {
                write!(f, "not planar: {faces} faces, {wanted} wanted")
            }
            StepRefusal::AnchorInside { component } => {
                write!(f, "the box of component {component} lies inside the move")
            }
            StepRefusal::SlideNeedsFramings => write!(f, "a slide needs framings"),
            StepRefusal::SameComponent => write!(f, "both edges are on one component"),
            StepRefusal::OddSigns { first, second } => {
                write!(
                    f,
                    "components {first} and {second} have an odd sum of signs"
                )
            }
            StepRefusal::FramingSize { component } => {
                write!(f, "framing of component {component} is out of range")
            }
        }
    }
}
