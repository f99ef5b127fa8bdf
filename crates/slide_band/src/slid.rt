//! What a slide gives.

use planar_check::{Framed, Sign};
use std::marker::Model;

/// What a handle slide gives.
///
/// Contracts see it as the record of its fields, the directions as a list.
#[derive(Drop, Debug)]
pub struct Slid {
    /// The diagram after the slide, with the framings; the components keep their numbers.
    pub framed: Framed,
    /// `Plus` where the component that is slid is walked along the other one, and `Minus` where it is walked against it.
    pub sign: Sign,
    /// For each component, from the first on, whether the result's walk goes against the direction of its old pieces.
    pub against: Vec<bool>,
}

impl Model for Slid {
    ghost use Rattle.slide_laws.specs.Slides.{SlidDiagram};

    ghost Value = { SlidDiagram };

    ghost view = { λ slid. record { framed = slid.framed; sign = slid.sign; against = slid.against.items } };

    ghost invariant = { λ slid. Unit {0} };
}
