//! Lists: items with a comma between two, and the mark that closes.

ghost use Rattle.std.specs.Prelude.{◌≡◌, ◌≤◌, ◌++◌, true, length, IfOk, IfErr, List, ℕ, ◌∷◌};
ghost use Rattle.std.specs.List.{AllByRecursion};
ghost use Rattle.text_shapes.specs.Shapes.{items_behind, items_inside, listed};
ghost use Rattle.text_shapes.specs.Reach.{IsToken, BeginsUnclosed, is_closing};
ghost use Rattle.text_shapes.specs.Readers.{Found, Missed, Accepts};
ghost use Rattle.pd_reader.specs.Stops.{MissesAt, StopsAt};

use crate::fault::Stop;
use crate::scan::{finish, mark, skip, stands, word};
use std::alloc::Global;

/// What stands in a list of a text: an item of a diagram or a net, and in the crates above a step of a
/// script and more.
pub trait TextItem: Copy {
    /// The texts have this item.
    ghost fits: { Self → Type 0 };

    /// The tokens that spell the item.
    ghost tokens: { Self → List (List ℕ) };

    /// Reads an item, which may stand behind white space, and says where it ends, or how far the bytes go
    /// on as one.
    fn read(bytes: &[u8], at: usize) -> Result<(Self, usize), usize>
        requires { at ≤ length bytes.now }
        ensures ok { IfOk result (λ found. Found fits tokens bytes.now at found.0 found.1) }
        ensures err { IfErr result (λ p. Missed fits tokens bytes.now at p) };

    ghost begins_unclosed: { (item : Self) → fits item → BeginsUnclosed (tokens item) };
}

/// Reads `,item,..,item` and the mark that closes, `]` or `}`, with any number of items, and puts them behind
/// those of `items`. It says where the list ends, or how far the bytes go on as one; what was read until then
/// is kept.
pub fn read_behind<I: TextItem>(
    bytes: &[u8],
    at: usize,
    close: u8,
    items: &mut Vec<I>,
) -> Result<usize, Stop>
    requires within { at ≤ length bytes.now }
    requires closing { is_closing close ≡ true }
    ensures ok { IfOk result (λ next. (read : List I) × (items.new.items ≡ items.old.items ++ read)
        × Found (AllByRecursion I.fits) (items_behind close I.tokens) bytes.now at read next) }
    ensures err { IfErr result (λ stop. MissesAt (AllByRecursion I.fits) (items_behind close I.tokens) bytes.now at stop) }
    ensures kept { (read : List I) × (items.new.items ≡ items.old.items ++ read) × AllByRecursion I.fits read }
{
    let mut next = skip(bytes, at);
    while stands(bytes, next, b',') {
        let (item, after) = I::read(bytes, next + 1)?;
        items.push(item)?;
        next = skip(bytes, after);
    }
    if stands(bytes, next, close) {
        Ok(next + 1)
    } else {
        Err(Stop::At(next))
    }
}

/// Reads `item,..,item` and the mark that closes, `]` or `}`, with any number of items, and says where the
/// list ends, or how far the bytes go on as one.
pub fn read_inside<I: TextItem>(
    alloc: Global,
    bytes: &[u8],
    at: usize,
    close: u8,
) -> Result<(Vec<I>, usize), Stop>
    requires within { at ≤ length bytes.now }
    requires closing { is_closing close ≡ true }
    ensures ok { IfOk result (λ found. Found (AllByRecursion I.fits) (items_inside close I.tokens) bytes.now at found.0.items found.1) }
    ensures err { IfErr result (λ stop. MissesAt (AllByRecursion I.fits) (items_inside close I.tokens) bytes.now at stop) }
{
    let mut items = Vec::new(alloc);
    let first = skip(bytes, at);
    if stands(bytes, first, close) {
        return Ok((items, first + 1));
    }
    let (item, after) = I::read(bytes, first)?;
    items.push(item)?;
    let next = read_behind(bytes, after, close, &mut items)?;
    Ok((items, next))
}

/// Reads `head[item,..,item]`, with any number of items, and says where the list ends, or how far the bytes
/// go on as one.
pub fn read_list<I: TextItem>(
    alloc: Global,
    bytes: &[u8],
    at: usize,
    head: &[u8],
) -> Result<(Vec<I>, usize), Stop>
    requires within { at ≤ length bytes.now }
    requires token { IsToken head.now }
    ensures ok { IfOk result (λ found. Found (AllByRecursion I.fits) (listed I.tokens head.now) bytes.now at found.0.items found.1) }
    ensures err { IfErr result (λ stop. MissesAt (AllByRecursion I.fits) (listed I.tokens head.now) bytes.now at stop) }
{
    let place = word(bytes, at, head)?;
    let opened = mark(bytes, place, b'[')?;
    let (items, next) = read_inside(alloc, bytes, opened, b']')?;
    Ok((items, next))
}

/// Reads `head[item,..,item]` where it is all the bytes, but for white space.
pub fn read_text<I: TextItem>(alloc: Global, bytes: &[u8], head: &[u8]) -> Result<Vec<I>, Stop>
    requires { IsToken head.now }
    ensures ok { IfOk result (λ items. Accepts (AllByRecursion I.fits) (listed I.tokens head.now) bytes.now items.items) }
    ensures err { IfErr result (λ stop. StopsAt (AllByRecursion I.fits) (listed I.tokens head.now) bytes.now stop) }
{
    let (items, end) = read_list(alloc, bytes, 0, head)?;
    finish(bytes, end)?;
    Ok(items)
}
