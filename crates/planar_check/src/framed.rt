//! Framed diagrams.

ghost use Rattle.std.specs.Prelude.{◌≡◌, ◌≢◌, ◌↔◌, ◌≤◌, ◌-◌, ◌^◌, ℕ, None, Some, length, IfOk, OnOk, IsTrue, option_map};
ghost use Rattle.std.specs.List.{position};
ghost use Rattle.planar_check.specs.Components.{least_labels};
ghost use Rattle.planar_check.specs.Framings.{framing_of, is_large, first_large, IsFramed};
ghost use Rattle.planar_check.specs.declared.fault.FramedFault.{FramedFault};

use crate::fault::FramedFault;
use crate::planar::Planar;
use std::alloc::Global;
use std::marker::Model;

/// A framing's greatest size: 2^60.
const GREATEST: u64 = 1_152_921_504_606_846_976;

/// A planar diagram with a framing for each of its components: a whole number at most 2^60 in size.
///
/// Contracts see it as the items of the diagram and the list of the framings. `IsFramed` says what each
/// keeps. (Lickorish, ch. 12.)
#[derive(Drop, Debug)]
pub struct Framed {
    planar: Planar,
    framings: Vec<i64>,
}

impl Model for Framed {
    ghost use Rattle.planar_check.specs.Framings.{FramedDiagram, IsFramed};

    ghost Value = { FramedDiagram };

    ghost view = { λ framed. record { items = framed.planar; framings = framed.framings.items } };

    ghost invariant = { λ framed. IsFramed record { items = framed.planar; framings = framed.framings.items } };
}

/// The index of the first framing that is past 2^60 in size.
fn first_large(framings: &[i64]) -> Option<usize>
    ensures { result ≡ position is_large framings.now }
{
    framings
        .iter()
        .position(|framing| framing.unsigned_abs() > GREATEST)
}

impl Framed {
    /// The diagram with these framings, that of component 1 first.
    ///
    /// `Count` comes exactly where there is not one framing for each component, and `Size` exactly where
    /// there is, and one is past 2^60 in size: it holds the first such component. `Memory` is want of
    /// memory.
    pub fn new(alloc: Global, planar: Planar, framings: &[i64]) -> Result<Framed, FramedFault>
        ensures made { IfOk result (λ framed. (framed.items ≡ planar) × (framed.framings ≡ framings.now)) }
        ensures framed { IfOk result IsFramed }

        // The number of framings is looked at before their sizes.
        ensures count { (given wanted : ℕ) → (result ≡ Err (FramedFault.Count given wanted))
            ↔ (given ≢ wanted) × (given ≡ length framings.now) × (wanted ≡ length (least_labels planar)) }
        ensures size { (component : ℕ) → (result ≡ Err (FramedFault.Size component))
            ↔ (length framings.now ≡ length (least_labels planar)) × (first_large framings.now ≡ Some component) }
    {
        let wanted = planar.components();
        if framings.len() != wanted as usize {
            return Err(FramedFault::Count {
                given: framings.len(),
                wanted,
            });
        }
        if let Some(place) = first_large(framings) {
            return Err(FramedFault::Size {
                component: place as u32 + 1,
            });
        }
        let framings = Vec::from_slice(alloc, framings)?;
        Ok(Framed { planar, framings })
    }

    /// The planar diagram.
    pub fn planar(&self) -> &Planar
        ensures planar { result.now ≡ self.now.items }
        ensures framed { IsFramed self.now }
    {
        &self.planar
    }

    /// The framings, that of component 1 first.
    pub(crate) fn framings(&self) -> &[i64]
        ensures { result.now ≡ self.now.framings }
    {
        &self.framings
    }

    /// The framing of a component, which is 1 to the diagram's `components()`.
    pub fn framing(&self, component: u32) -> i64
        requires first { 1 ≤ component }
        requires last { component ≤ length (least_labels self.now.items) }
        ensures { result ≡ framing_of self.now component }
    {
        self.framings[component as usize - 1]
    }
}
