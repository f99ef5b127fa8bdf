//! Names within a grid.

ghost use Rattle.std.specs.Prelude.{◌≡◌, ◌++◌, ◌∷◌, [], ◌≤◌, IfOk, reverse};
ghost use Rattle.cables.specs.CableNodes.{upright_names, line_names};

use std::alloc::{AllocError, Global};

/// The least name within grids: names of strands are below it.
const FIRST_INNER: u32 = 33_554_432;

/// The names in the other direction.
pub(crate) fn reversed(alloc: Global, names: &[u32]) -> Result<Vec<u32>, AllocError>
    ensures { IfOk result (λ turned. turned.items ≡ reverse names.now) }
{
    let mut turned = Vec::from_slice(alloc, names)?;
    turned.reverse();
    Ok(turned)
}

/// The names between row i of the grid of item k and the next row, from west to east.
pub(crate) fn upright_names(alloc: Global, k: u32, u: u32, i: u32) -> Result<Vec<u32>, AllocError>
    requires item { k ≤ 255 }
    requires columns { u ≤ 8 }
    requires row { i ≤ 7 }
    ensures { IfOk result (λ names. names.items ≡ upright_names k u i) }
{
    let mut names = Vec::new(alloc);
    for j in 0..u {
        names.push(FIRST_INNER + 128 * k + 8 * i + j)?;
    }
    Ok(names)
}

/// The names east of each node of row i of the grid of item k, from west to east; the last is given.
pub(crate) fn line_to(
    alloc: Global,
    k: u32,
    u: u32,
    i: u32,
    east: u32,
) -> Result<Vec<u32>, AllocError>
    requires item { k ≤ 255 }
    requires some { 1 ≤ u }
    requires columns { u ≤ 8 }
    requires row { i ≤ 7 }
    ensures { IfOk result (λ names. names.items ≡ line_names k u i ++ east ∷ []) }
{
    let mut names = Vec::new(alloc);
    for j in 0..u - 1 {
        names.push(FIRST_INNER + 128 * k + 64 + 8 * i + j)?;
    }
    names.push(east)?;
    Ok(names)
}
