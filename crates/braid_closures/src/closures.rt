//! The closure of a braid as a diagram.

ghost use Rattle.std.specs.Prelude.{◌≡◌, ◌+◌, ◌*◌, ◌-◌, ◌<◌, ◌≤◌, ◌++◌, length, ℤ, List, IfOk, OnOk};
ghost use Rattle.std.specs.Int.RustNames.{unsigned_abs};
ghost use Rattle.std.specs.List.{AllByRecursion, range_with_len};
ghost use Rattle.braid_trace.specs.Braids.{IsBraid};
ghost use Rattle.braid_closures.specs.Closures.{touches, is_touched, new_label, unused_after, entry_item, crossings, loops, closed};

use braid_trace::Braid;
use pd_reader::{Diagram, Item};
use std::alloc::{AllocError, Global};

/// Whether the entry crosses the strand at a position.
fn touches(entry: i32, position: u32) -> bool
    requires { 0 < position }
    ensures { result ≡ touches entry position }
{
    let left = entry.unsigned_abs();
    position == left || position - 1 == left
}

/// Whether some entry crosses the strand at a position.
fn is_touched(word: &[i32], position: u32) -> bool
    requires { 0 < position }
    ensures { result ≡ is_touched word.now position }
{
    for entry in word {
        if touches(*entry, position) {
            return true;
        }
    }
    false
}

/// The label of a position behind an entry that touches it: its beginning label where no later entry touches it,
/// else the next unused one, which is then used.
fn new_label(later: &[i32], position: u32, unused: &mut u32) -> u32
    requires position { 0 < position }
    requires unused { unused.old < 1000000 }
    ensures label { result ≡ new_label later.now position unused.old }
    ensures unused { unused.new ≡ unused_after later.now position unused.old }
{
    if is_touched(later, position) {
        let label = *unused;
        *unused += 1;
        label
    } else {
        position
    }
}

/// The crossing of an entry, by the labels below it and above it.
fn entry_item(entry: i32, x: u32, y: u32, left: u32, right: u32) -> Item
    ensures { result ≡ entry_item entry x y left right }
{
    if entry < 0 {
        Item::X([x, y, right, left])
    } else {
        Item::X([y, right, left, x])
    }
}

/// The labels that the positions begin with, from the left: 1, 2, and so on.
fn beginning_labels(alloc: Global, strands: u32) -> Result<Vec<u32>, AllocError>
    ensures { IfOk result (λ labels. labels.items ≡ range_with_len 1 strands) }
{
    let mut labels = Vec::new(alloc);
    for place in 0..strands {
        labels.push(place + 1)?;
    }
    Ok(labels)
}

/// The crossings of the entries.
fn crossings(alloc: Global, strands: u32, word: &[i32]) -> Result<Vec<Item>, AllocError>
    requires { IsBraid record { strands = strands; word = word.now } }
    ensures { IfOk result (λ items. items.items ≡ crossings (range_with_len 1 strands) (strands + 1) word.now) }
{
    let mut labels = beginning_labels(alloc, strands)?;
    let mut unused = strands + 1;
    let mut items = Vec::new(alloc);
    for at in 0..word.len() {
        let entry = word[at];
        let later = &word[at + 1..];
        let position = entry.unsigned_abs();
        let place = position as usize;
        let (x, y) = (labels[place - 1], labels[place]);
        let left = new_label(later, position, &mut unused);
        let right = new_label(later, position + 1, &mut unused);
        labels[place - 1] = left;
        labels[place] = right;
        items.push(entry_item(entry, x, y, left, right))?;
    }
    Ok(items)
}

/// Pushes a loop for a position, if no entry touches it.
fn push_loop(items: &mut Vec<Item>, word: &[i32], position: u32) -> Result<(), AllocError>
    requires { 0 < position }
    ensures { OnOk result (items.new.items ≡ items.old.items ++ loops word.now position 1) }
{
    if !is_touched(word, position) {
        items.push(Item::Loop(position))?;
    }
    Ok(())
}

/// Pushes a loop for each position that no entry touches.
fn push_loops(items: &mut Vec<Item>, strands: u32, word: &[i32]) -> Result<(), AllocError>
    ensures { OnOk result (items.new.items ≡ items.old.items ++ loops word.now 1 strands) }
{
    for place in 0..strands {
        push_loop(items, word, place + 1)?;
    }
    Ok(())
}

/// The closure of the braid: the top of each position joined with its bottom.
///
/// Position p, from 1 on, begins with the label p. An entry of size i takes the labels x and y of the positions i
/// and i+1, and gives these positions new ones, x' and then y': the beginning label where no later entry touches
/// the position, else the next unused one, counted on from the number of strands. It is the crossing
/// `X[y,y',x',x]` if it is positive, else `X[x,y,y',x']`. Behind the crossings stands a `Loop[p]` for each
/// position p that no entry touches. (Labels and order are this project's own.)
///
/// The only error is want of memory.
pub fn closure(alloc: Global, braid: &Braid) -> Result<Diagram, AllocError>
    ensures { IfOk result (λ diagram. diagram ≡ closed braid.now) }
{
    let word = braid.word();
    let mut items = crossings(alloc, braid.strands(), word)?;
    push_loops(&mut items, braid.strands(), word)?;
    Diagram::of_paired(alloc, &items)
}
