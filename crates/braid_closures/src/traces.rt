//! The bracket of the closure of a braid, by the Temperley-Lieb algebra.

ghost use Rattle.std.specs.Prelude.{◌≡◌, ◌<◌, ◌≤◌, ℤ, IfOk};
ghost use Rattle.std.specs.Int.RustNames.{unsigned_abs};
ghost use Rattle.box_laws.specs.Traces.{letter_element};
ghost use Rattle.diagram_brackets.specs.Brackets.{bracket};
ghost use Rattle.temperley_lieb.specs.Elements.{AreBelow, element_of};
ghost use Rattle.braid_closures.specs.Closures.{closed};
ghost use Rattle.braid_closures.specs.Letters.{letter_of};

use braid_trace::Braid;
use root_quantum::Params;
use std::alloc::{AllocError, Global};
use temperley_lieb::{Element, add, close, hook, identity, multiply, scale};

/// The weights of an entry: of the strands going straight on, and of the hook.
fn weights(params: &Params, entry: i32) -> (u64, u64)
    ensures straight { result.0 ≡ (letter_of params.now entry).straight }
    ensures hook { result.1 ≡ (letter_of params.now entry).hook }
    ensures straight_below { result.0 < params.now.modulus }
    ensures hook_below { result.1 < params.now.modulus }
{
    if entry < 0 {
        (params.root_inverse(), params.root())
    } else {
        (params.root(), params.root_inverse())
    }
}

/// The element of an entry on n strands: A times the identity plus A^-1 times the hook, A and A^-1 exchanged for a
/// negative entry. The only error is want of memory.
fn letter(alloc: Global, params: &Params, n: u32, entry: i32) -> Result<Element, AllocError>
    requires few { n ≤ 8 }
    requires above { 0 < unsigned_abs entry }
    requires below { unsigned_abs entry < n }
    ensures value { IfOk result (λ element. element ≡ element_of n (letter_element params.now.modulus n (letter_of params.now entry))) }
    ensures below { IfOk result (AreBelow params.now.modulus) }
{
    let (straight, hooked) = weights(params, entry);
    let strands = scale(alloc, params, &identity(alloc, params, n)?, straight)?;
    let hooks = scale(
        alloc,
        params,
        &hook(alloc, params, n, entry.unsigned_abs())?,
        hooked,
    )?;
    let sum = add(alloc, params, &strands, &hooks)?;
    Ok(sum)
}

/// The bracket of the closure of the braid, as the trace of its word in the Temperley-Lieb algebra: from the first
/// entry upward A times the identity plus A^-1 times the hook, A and A^-1 exchanged for a negative entry, and the
/// product closed (Lickorish, ch. 13). It is 11 for three strands with no entry at 41, 2, 5.
///
/// The only error is want of memory.
pub fn trace(alloc: Global, params: &Params, braid: &Braid) -> Result<u64, AllocError>
    ensures { IfOk result (λ value. value ≡ bracket params.now (closed braid.now)) }
{
    let word = braid.word();
    let n = braid.strands();
    let mut product = identity(alloc, params, n)?;
    for entry in word {
        let element = letter(alloc, params, n, *entry)?;
        product = multiply(alloc, params, &element, &product)?;
    }
    Ok(close(params, &product))
}
