//! The different labels of a list, in increasing order, and where a label stands among them.

ghost use Rattle.std.specs.Prelude.{◌≡◌, ◌==◌, true, ℕ, IfOk};
ghost use Rattle.std.specs.BTreeSet.{contains};
ghost use Rattle.std.specs.List.Sorted.{IsStrictlySortedBy};
ghost use Rattle.std.specs.Ordering.{nat_cmp};
ghost use Rattle.std.specs.Set.{is_member};
ghost use Rattle.planar_check.specs.Components.{distinct, rank};

use std::alloc::{AllocError, Global};
use std::collections::BTreeSet;

/// The labels as a set.
fn label_set(alloc: Global, labels: &[u32]) -> Result<BTreeSet<u32>, AllocError>
    ensures { IfOk result (λ set. (label : ℕ) → contains nat_cmp set label ≡ is_member ◌==◌ labels.now label) }
{
    let mut set = BTreeSet::new(alloc);
    for label in labels {
        set.insert(*label)?;
    }
    Ok(set)
}

/// The keys of the set, in increasing order.
fn listed(alloc: Global, set: &BTreeSet<u32>) -> Result<Vec<u32>, AllocError>
    ensures keys { IfOk result (λ found. found.items ≡ set.now.keys) }
    ensures sorted { IfOk result (λ found. IsStrictlySortedBy nat_cmp found.items) }
{
    let mut found = Vec::new(alloc);
    for label in set.iter() {
        found.push(*label)?;
    }
    Ok(found)
}

/// The different labels of the list, in increasing order. The only error is want of memory.
pub fn distinct(alloc: Global, labels: &[u32]) -> Result<Vec<u32>, AllocError>
    ensures { IfOk result (λ found. found.items ≡ distinct labels.now) }
{
    let set = label_set(alloc, labels)?;
    let found = listed(alloc, &set)?;
    Ok(found)
}

/// The index at which the label stands in an increasing list of labels, or the length of the list.
pub fn rank(names: &[u32], label: u32) -> usize
    requires { IsStrictlySortedBy nat_cmp names.now }
    ensures { result ≡ rank names.now label }
{
    match names.binary_search(&label) {
        Ok(rank) => rank,
        Err(_) => names.len(),
    }
}
