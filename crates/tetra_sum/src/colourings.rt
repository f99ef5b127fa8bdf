//! The admissible colourings, label by label.

ghost use Rattle.std.specs.Prelude.{◌≡◌, ◌≤◌, ◌++◌, ◌∷◌, [], length, map, filter, IfOk, OnOk};
ghost use Rattle.std.specs.List.{flat_map};
ghost use Rattle.coloured_values.specs.Surgery.{colour_lists};
ghost use Rattle.tetra_sum.specs.Colourings.{colours_below, are_allowed};
ghost use Rattle.tetra_sum.specs.Lists.{lists, longer_by};

use crate::colours::are_allowed;
use std::alloc::{AllocError, Global};

/// Puts the colouring with one colour more behind the list, unless a face that is wholly coloured forbids it.
fn push_allowed(
    alloc: Global,
    r: u32,
    labels: &[u32],
    faces: &[[u32; 3]],
    colours: &[u32],
    colour: u32,
    list: &mut Vec<Vec<u32>>,
) -> Result<(), AllocError>
    requires { 3 ≤ r }
    ensures { OnOk result (lists list.new.items ≡ lists list.old.items
        ++ filter (λ each. are_allowed r labels.now each faces.now) ((colours.now ++ colour ∷ []) ∷ [])) }
{
    let mut longer = Vec::from_slice(alloc, colours)?;
    longer.push(colour)?;
    if !are_allowed(r, labels, &longer, faces) {
        return Ok(());
    }
    list.push(longer)?;
    Ok(())
}

/// Puts this colouring of the first labels behind the list, with each colour of the next one, but for those that a face forbids.
fn push_longer(
    alloc: Global,
    r: u32,
    labels: &[u32],
    faces: &[[u32; 3]],
    colours: &[u32],
    list: &mut Vec<Vec<u32>>,
) -> Result<(), AllocError>
    requires { 3 ≤ r }
    ensures { OnOk result (lists list.new.items ≡ lists list.old.items
        ++ filter (λ each. are_allowed r labels.now each faces.now) (longer_by (colours_below r) colours.now)) }
{
    for colour in 0..r - 1 {
        push_allowed(alloc, r, labels, faces, colours, colour, list)?;
    }
    Ok(())
}

/// The same for each colouring of the list.
fn longer(
    alloc: Global,
    r: u32,
    labels: &[u32],
    faces: &[[u32; 3]],
    list: &[Vec<u32>],
) -> Result<Vec<Vec<u32>>, AllocError>
    requires { 3 ≤ r }
    ensures { IfOk result (λ next. lists next.items ≡ flat_map (λ colours. filter (λ each. are_allowed r labels.now each faces.now) (longer_by (colours_below r) colours)) (lists list.now)) }
{
    let mut next = Vec::new(alloc);
    for colours in list {
        push_longer(alloc, r, labels, faces, colours, &mut next)?;
    }
    Ok(next)
}

/// The admissible colourings of the labels by the colours 0 to r-2, in dictionary order, the last label fastest: each face's colours
/// x, y, z make an admissible vertex, and x+y+z is at most 2r-4. Labels are coloured one by one, and a colouring of the first labels is
/// left as soon as a face that is wholly coloured forbids it. r is at least 3. The only error is want of memory.
pub(crate) fn allowed(
    alloc: Global,
    r: u32,
    labels: &[u32],
    faces: &[[u32; 3]],
) -> Result<Vec<Vec<u32>>, AllocError>
    requires { 3 ≤ r }
    ensures { IfOk result (λ list. lists list.items ≡ filter (λ each. are_allowed r labels.now each faces.now) (colour_lists (colours_below r) (length labels.now))) }
{
    let mut list = Vec::new(alloc);
    list.push(Vec::new(alloc))?;
    for _ in 0..labels.len() {
        list = longer(alloc, r, labels, faces, &list)?;
    }
    Ok(list)
}
