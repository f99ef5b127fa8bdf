//! Both places of a label: the first one, and across the edge the other.

ghost use Rattle.std.specs.Prelude.{◌≡◌, ◌==◌, ◌<◌, Some, length, slice_index, slice_set, unwrap_or, if◌then◌else◌, ℕ, IfOk};
ghost use Rattle.std.specs.BTreeMap.{get};
ghost use Rattle.std.specs.Ordering.{nat_cmp};
ghost use Rattle.planar_check.specs.Places.{first_place, other_places};

use std::alloc::{AllocError, Global};
use std::collections::BTreeMap;

/// The place at which the label was first met, which is this one where it was not met before.
fn first_met(
    firsts: &mut BTreeMap<u32, usize>,
    label: u32,
    place: usize,
) -> Result<usize, AllocError>
    ensures first { IfOk result (λ first. first ≡ unwrap_or (get nat_cmp firsts.old label) place) }
    ensures met { IfOk result (λ first. (other : ℕ) → get nat_cmp firsts.new other ≡ (if label == other then Some first else get nat_cmp firsts.old other)) }
{
    Ok(*firsts.entry(label)?.or_insert(place))
}

/// Both places of each label, as far as it has them.
#[derive(Drop)]
pub(crate) struct LabelPlaces {
    /// The first place of each label that stands at one.
    pub firsts: BTreeMap<u32, usize>,
    /// For each place the other place of its label: the first other one, or itself where there is none.
    pub others: Vec<usize>,
}

/// Gives the first place of a label this one as its other place, where it had none.
fn give_other(others: &mut [usize], first: usize, place: usize)
    requires { first < length others.old }
    ensures { others.new ≡ (if slice_index others.old first == first then slice_set others.old first place else others.old) }
{
    if others[first] == first {
        others[first] = place;
    }
}

/// Both places of each of the labels, which stand at the places in this order.
pub(crate) fn label_places(alloc: Global, labels: &[u32]) -> Result<LabelPlaces, AllocError>
    ensures firsts { IfOk result (λ both. (label : ℕ) → get nat_cmp both.firsts label ≡ first_place labels.now label) }
    ensures others { IfOk result (λ both. both.others.items ≡ other_places labels.now) }
{
    let mut firsts = BTreeMap::new(alloc);
    let mut others = Vec::new(alloc);
    for (place, label) in labels.iter().enumerate() {
        let first = first_met(&mut firsts, *label, place)?;
        others.push(first)?;
        give_other(&mut others, first, place);
    }
    Ok(LabelPlaces { firsts, others })
}
