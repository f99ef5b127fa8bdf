//! The linking matrix of a framed diagram.

ghost use Rattle.std.specs.Prelude.{◌≡◌, ◌≢◌, ◌+◌, ◌*◌, ◌/◌, ◌%◌, ◌^◌, ◌<◌, ◌≤◌, ◌++◌, ◌∷◌, [], ◌+ℤ◌, ℕ, List, pos, length, map, slice_index_or, slice_set, IfOk};
ghost use Rattle.std.specs.Int.RustNames.{unsigned_abs};
ghost use Rattle.std.specs.List.{All, range_with_len};
ghost use Rattle.inertia_cert.specs.SymmetricMatrices.{entry, AllFit};
ghost use Rattle.planar_check.specs.declared.sign.Signed.{Signed};
ghost use Rattle.planar_check.specs.Components.{least_labels};
ghost use Rattle.planar_check.specs.Framings.{linking_entry};
ghost use Rattle.planar_check.specs.Tables.{entry_from, sign_value, AreSignSums, IsWithin};

use crate::framed::Framed;
use crate::sign::{Sign, Signed};
use inertia_cert::{Matrix, MatrixFault};
use std::alloc::{AllocError, Global};

/// Adds a sign to the number at this place.
fn add_at(sums: &mut [i64], place: usize, sign: Sign)
    requires in_range { place < length sums.old }
    requires small { unsigned_abs (slice_index_or sums.old place (pos 0)) < 2 ^ 32 }
    ensures { sums.new ≡ slice_set sums.old place (slice_index_or sums.old place (pos 0) +ℤ sign_value sign) }
{
    sums[place] += sign.value();
}

/// Adds the sign of a crossing of two components to their sum, which stands at two places of the table.
fn add_sign(sums: &mut [i64], size: usize, crossing: &Signed)
    requires small { size ≤ 512 }
    requires sums { (before : List Signed) × (length before < 2 ^ 32) × AreSignSums size before sums.old }
    requires within { IsWithin size crossing.now }
    requires apart { crossing.now.under ≢ crossing.now.over }
    ensures { (before : List Signed) → AreSignSums size before sums.old → AreSignSums size (before ++ crossing.now ∷ []) sums.new }
{
    let under = crossing.under as usize - 1;
    let over = crossing.over as usize - 1;
    add_at(sums, under * size + over, crossing.sign);
    add_at(sums, over * size + under, crossing.sign);
}

/// The sums of the signs of the crossings between each two of the components.
fn sign_sums(alloc: Global, crossings: &[Signed], size: usize) -> Result<Vec<i64>, AllocError>
    requires small { size ≤ 512 }
    requires few { length crossings.now < 2 ^ 32 }
    requires within { All (IsWithin size) crossings.now }
    ensures { IfOk result (λ sums. AreSignSums size crossings.now sums.items) }
{
    let mut sums = vec![in alloc; 0; size * size]?;
    for crossing in crossings {
        if crossing.under != crossing.over {
            add_sign(&mut sums, size, crossing);
        }
    }
    Ok(sums)
}

/// The entry at a place of the linking matrix.
fn entry_at(framings: &[i64], sums: &[i64], place: usize) -> i64
    requires full { length sums.now ≡ length framings.now * length framings.now }
    requires in_range { place < length sums.now }
    ensures { result ≡ entry_from framings.now sums.now place }
{
    let size = framings.len();
    if place / size == place % size {
        framings[place / size]
    } else {
        sums[place] / 2
    }
}

/// The entries of the linking matrix, rows one after the other.
fn entries(alloc: Global, framings: &[i64], sums: &[i64]) -> Result<Vec<i128>, AllocError>
    requires full { length sums.now ≡ length framings.now * length framings.now }
    ensures entries { IfOk result (λ entries. entries.items ≡ map (entry_from framings.now sums.now) (range_with_len 0 (length sums.now))) }
    ensures fit { IfOk result (λ entries. AllFit entries.items) }
{
    let mut entries = Vec::with_capacity(alloc, sums.len())?;
    for place in 0..sums.len() {
        entries.push(i128::from(entry_at(framings, sums, place)))?;
    }
    Ok(entries)
}

/// The linking matrix: the framings on its diagonal, the linking numbers elsewhere.
///
/// Rows and columns are the components in their order; in the matrix they count from 0. A chain of three with
/// the framings 0, whose middle is the first component, has the rows 0,1,1; 1,0,0; 1,0,0. The only error is
/// want of memory.
pub fn linking_matrix(alloc: Global, framed: &Framed) -> Result<Matrix, AllocError>
    ensures size { IfOk result (λ matrix. matrix.size ≡ length (least_labels framed.now.items)) }
    ensures entries { IfOk result (λ matrix. (i j : ℕ) → i < matrix.size → j < matrix.size
        → entry matrix i j ≡ linking_entry framed.now (i + 1) (j + 1)) }
{
    let size = framed.planar().components();
    let sums = sign_sums(alloc, framed.planar().crossings(), size as usize)?;
    let entries = entries(alloc, framed.framings(), &sums)?;
    match Matrix::new(alloc, size, &entries) {
        Ok(matrix) => Ok(matrix),
        Err(MatrixFault::Memory) => Err(AllocError),
        Err(MatrixFault::Size { .. }) => unreachable!(),
        Err(MatrixFault::NotSymmetric { .. }) => unreachable!(),
    }
}
