//! How often labels stand.

ghost use Rattle.std.specs.Prelude.{◌≡◌, ◌==◌, ◌+◌, ◌*◌, ◌<◌, ◌≤◌, ℕ, length, vec_len, IfOk, OnOk, option_map};
ghost use Rattle.std.specs.List.{AllByRecursion};
ghost use Rattle.std.specs.List.Sorted.{IsNonDecreasing};
ghost use Rattle.list_lemmas.specs.Times.{times_in};
ghost use Rattle.pd_reader.specs.Diagrams.{least_unpaired, labels};

use crate::item::Labelled;
use std::alloc::{AllocError, Global};

/// How often the label stands in a list in ascending order: by two searches, so that counting each of many
/// labels takes little more than sorting them.
fn times(labels: &[u32], label: u32) -> usize
    requires { IsNonDecreasing labels.now }
    ensures { result ≡ times_in labels.now label }
{
    let below = labels.partition_point(|other| *other < label);
    let up_to = labels.partition_point(|other| *other <= label);
    up_to - below
}

/// The labels in ascending order.
fn ascending(alloc: Global, labels: &[u32]) -> Result<Vec<u32>, AllocError>
    ensures ascends { IfOk result (λ found. IsNonDecreasing found.items) }
    ensures same { IfOk result (λ found. (label : ℕ) → times_in found.items label ≡ times_in labels.now label) }
{
    let mut found = Vec::from_slice(alloc, labels)?;
    found.sort_unstable();
    Ok(found)
}

/// The least label that doesn't stand twice in the list, and how often it stands there.
pub(crate) fn unpaired(alloc: Global, labels: &[u32]) -> Result<Option<(u32, usize)>, AllocError>
    ensures { IfOk result (λ found. found ≡ option_map (λ label. (label, times_in labels.now label)) (least_unpaired labels.now)) }
{
    let sorted = ascending(alloc, labels)?;
    let mut least: Option<u32> = None;
    for label in labels {
        if times(&sorted, *label) != 2 {
            least = Some(match least {
                Some(other) => other.min(*label),
                None => *label,
            });
        }
    }
    match least {
        Some(label) => Ok(Some((label, times(&sorted, label)))),
        None => Ok(None),
    }
}

/// The labels of the items, one item after the other, once for each standing: a loop's stands twice.
pub fn labels<I: Labelled>(alloc: Global, items: &[I]) -> Result<Vec<u32>, AllocError>
    ensures items { IfOk result (λ found. found.items ≡ labels I.labels items.now) }
    ensures few { IfOk result (λ found. vec_len found ≤ 4 * length items.now) }
    ensures sized { OnOk result (AllByRecursion I.has_size items.now) }
{
    let mut found = Vec::new(alloc);
    for item in items {
        item.push_labels(&mut found)?;
    }
    Ok(found)
}
