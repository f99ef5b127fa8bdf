//! The closure of a braid of two strands.

ghost use Rattle.std.specs.Prelude.{◌≡◌, ◌≤◌, IfOk};
ghost use Rattle.pd_reader.specs.Torus.{torus_items};

use crate::diagram::{Diagram, MOST_ITEMS};
use crate::item::Item;
use std::alloc::{AllocError, Global};

/// The torus link of type (2, n) with n crossings, 1 to 256: crossing i is X[2i, 2i+2, 2i+1, 2i-1], and
/// the last one X[2n, 2, 1, 2n-1] (this project's own numbering).
pub fn torus(alloc: Global, n: u32) -> Result<Diagram, AllocError>
    requires least { 1 ≤ n }
    requires most { n ≤ MOST_ITEMS }
    ensures { IfOk result (λ diagram. diagram ≡ torus_items n) }
{
    let mut items = Vec::new(alloc);
    for i in 1..n {
        items.push(Item::X([2 * i, 2 * i + 2, 2 * i + 1, 2 * i - 1]))?;
    }
    items.push(Item::X([2 * n, 2, 1, 2 * n - 1]))?;
    Ok(Diagram { items })
}
