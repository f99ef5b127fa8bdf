//! All noncrossing pairings.

ghost use Rattle.std.specs.Prelude.{◌≡◌, ◌<◌, ◌≤◌, ◌+◌, ◌++◌, length, map, IfOk};
ghost use Rattle.std.specs.List.{All, flat_map};
ghost use Rattle.strand_algebra.specs.Noncrossing.{nested, noncrossing};
ghost use Rattle.strand_algebra.specs.Laws.{IsNoncrossingOn};
ghost use Rattle.state_sums.specs.Networks.{IsPairing};

use crate::strands::straight;
use arc_pairing::Pairing;
use arrayvec::ArrayVec;
use std::alloc::{AllocError, Global};

/// Point 0 paired with point 2k+1: between them stand the 2k points of `inside`, and behind them those of `behind`.
fn nested(k: u32, inside: &Pairing, behind: &Pairing) -> Pairing
    requires around { length inside.now ≡ k + k }
    requires few { length inside.now + length behind.now ≤ 14 }
    requires pairing { IsPairing (nested k inside.now behind.now) }
    ensures { result ≡ nested k inside.now behind.now }
{
    let between = inside.len();
    let mut partners: ArrayVec<u8, 24> = ArrayVec::new();
    partners.push(between + 1);
    for point in inside.partners() {
        partners.push(*point + 1);
    }
    partners.push(0);
    let past = between + 2;
    for point in behind.partners() {
        partners.push(*point + past);
    }
    Pairing::new(partners.as_slice()).unwrap()
}

/// Adds the pairings in which `inside`, of 2k points, stands between point 0 and its partner, and each of these stands behind.
fn push_before_each(
    list: &mut Vec<Pairing>,
    k: u32,
    rest: u32,
    inside: &Pairing,
    behind: &[Pairing],
) -> Result<(), AllocError>
    requires few { k + rest < 8 }
    requires inside { IsNoncrossingOn k inside.now }
    requires behind { All (IsNoncrossingOn rest) behind.now }
    ensures { IfOk result (λ _. list.new.items ≡ list.old.items ++ map (nested k inside.now) behind.now) }
{
    for outer in behind {
        list.push(nested(k, inside, outer))?;
    }
    Ok(())
}

/// Adds the pairings in which one of these, of 2k points, stands between point 0 and its partner, and one of those behind.
fn push_around(
    list: &mut Vec<Pairing>,
    k: u32,
    rest: u32,
    inner: &[Pairing],
    behind: &[Pairing],
) -> Result<(), AllocError>
    requires few { k + rest < 8 }
    requires inner { All (IsNoncrossingOn k) inner.now }
    requires behind { All (IsNoncrossingOn rest) behind.now }
    ensures { IfOk result (λ _. list.new.items ≡ list.old.items ++ flat_map (λ inside. map (nested k inside) behind.now) inner.now) }
{
    for inside in inner {
        push_before_each(list, k, rest, inside, behind)?;
    }
    Ok(())
}

/// All noncrossing pairings of the 2n ends of n strands, n at most 8, in dictionary order.
pub(crate) fn noncrossing(alloc: Global, strands: u32) -> Result<Vec<Pairing>, AllocError>
    requires { strands ≤ 8 }
    ensures { IfOk result (λ list. list.items ≡ noncrossing strands) }
{
    let mut list = Vec::new(alloc);
    if strands == 0 {
        list.push(straight(0))?;
        return Ok(list);
    }
    for k in 0..strands {
        let inner = noncrossing(alloc, k)?;
        let behind = noncrossing(alloc, strands - 1 - k)?;
        push_around(&mut list, k, strands - 1 - k, &inner, &behind)?;
    }
    Ok(list)
}
