//! Projectors.

ghost use Rattle.std.specs.Prelude.{◌≡◌};
ghost use Rattle.temperley_lieb.specs.Elements.{AreBelow};
ghost use Rattle.wenzl_table.specs.Projectors.{IsColourOf, IsProjectorOf};

use root_quantum::Params;
use std::marker::Model;
use temperley_lieb::Element;

/// The projector of a colour n, from 1 to the top colour, for its parameters: f^n of Wenzl's recursion, an
/// element on n strands (Lickorish, ch. 13; Kauffman and Lins).
///
/// Contracts see a projector as its parameters, its colour and its element. Its type keeps that the element is
/// f^n for them. Projectors are made by `build` alone.
#[derive(Drop)]
pub struct Projector {
    pub(crate) params: Params,
    pub(crate) colour: u32,
    pub(crate) element: Element,
}

impl Model for Projector {
    ghost use Rattle.wenzl_table.specs.Projectors;
    ghost use Rattle.std.specs.Coded.{codes};
    ghost use Rattle.root_quantum.specs.Parameters.{parameters_code};

    ghost Value = { Projectors.Projector };

    ghost coded = { Prim.hlevel (codes, parameters_code) };

    ghost view = { λ projector. record { params = projector.params; colour = projector.colour; element = projector.element } };

    ghost invariant = { λ projector.
        Projectors.IsColourOf projector.params projector.colour × Projectors.IsProjectorOf projector.params projector.colour projector.element };
}

impl Projector {
    /// The parameters. It takes no memory.
    pub fn params(&self) -> &Params
        ensures { result.now ≡ self.now.params }
    {
        &self.params
    }

    /// The colour. It takes no memory.
    pub fn colour(&self) -> u32
        ensures value { result ≡ self.now.colour }
        ensures colour { IsColourOf self.now.params self.now.colour }
    {
        self.colour
    }

    /// The element, which has `colour` strands. It takes no memory.
    pub fn element(&self) -> &Element
        ensures value { result.now ≡ self.now.element }
        ensures colour { IsColourOf self.now.params self.now.colour }
        ensures projector { IsProjectorOf self.now.params self.now.colour self.now.element }
        ensures below { AreBelow self.now.params.modulus self.now.element }
    {
        &self.element
    }
}
