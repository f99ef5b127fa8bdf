//! The doubling of a component.

ghost use Rattle.std.specs.Prelude.{◌≡◌, ◌+◌, ◌*◌, ◌<◌, ◌≤◌, ◌^◌, ◌++◌, ◌==◌, ℕ, [], ◌∷◌, List, length, IfOk, OnOk, Bool, cond};
ghost use Rattle.slide_strands.specs.Strands.{alike};
ghost use Rattle.slide_strands.specs.Doubling.{Slide, columns, rows, grid, inner, doubled, copy};
ghost use Rattle.slide_band.specs.Copies.{slide_with, copied_label};

use slide_strands::{Piece, Strand};
use std::alloc::{AllocError, Global};

/// How a component is doubled: its number, that of the component that gets the copy, the side of the copy, and whether the copy is
/// walked as the component is.
#[derive(Clone, Copy, Debug)]
pub(crate) struct Doubling {
    pub over: u32,
    pub onto: u32,
    pub side: bool,
    pub along: bool,
}

/// The label of the copy of the edge x, where the labels of the component are `names` and those of the copy begin with `first`.
pub(crate) fn copied(names: &[u32], first: u32, x: u32) -> u32
    requires { first + length names.now < 2 ^ 32 }
    ensures { result ≡ copied_label names.now first x }
{
    let mut count: u32 = 0;
    for name in names {
        if *name == x {
            return first + count;
        }
        count += 1;
    }
    first + count
}

/// Whether two truth values are the same.
pub(crate) fn alike(x: bool, y: bool) -> bool
    ensures { result ≡ alike x y }
{
    x == y
}

/// The copy of a strand.
fn copy(doubling: Doubling, names: &[u32], first: u32, strand: Strand) -> Strand
    requires { first + length names.now < 2 ^ 32 }
    ensures { result ≡ copy (slide_with doubling names.now first) strand }
{
    Strand {
        from: copied(names, first, strand.from),
        to: copied(names, first, strand.to),
        ahead: doubling.along == strand.ahead,
        component: doubling.onto,
    }
}

/// Two strands in one order or the other.
fn ordered(copy_first: bool, copy: Strand, strand: Strand) -> [Strand; 2]
    ensures { result ≡ cond copy_first (copy ∷ strand ∷ []) (strand ∷ copy ∷ []) }
{
    if copy_first {
        [copy, strand]
    } else {
        [strand, copy]
    }
}

/// A crossing's grid behind the pieces, with inner labels from n on.
fn push_grid(
    n: u32,
    under: &[Strand],
    over: &[Strand],
    into: &mut Vec<Piece>,
) -> Result<(), AllocError>
    requires small { n + 4 < 2 ^ 32 }
    ensures { OnOk result (into.new.items ≡ into.old.items ++ grid n under.now over.now) }
{
    match (under, over) {
        ([u], [o]) => into.extend_from_slice(&[Piece::Crossed(*u, *o)]),
        ([u], [o, p]) => into.extend_from_slice(&[
            Piece::Crossed(Strand { to: n, ..*u }, *o),
            Piece::Crossed(Strand { from: n, ..*u }, *p),
        ]),
        ([u, v], [o]) => into.extend_from_slice(&[
            Piece::Crossed(*u, Strand { to: n, ..*o }),
            Piece::Crossed(*v, Strand { from: n, ..*o }),
        ]),
        ([u, v], [o, p]) => into.extend_from_slice(&[
            Piece::Crossed(Strand { to: n, ..*u }, Strand { to: n + 2, ..*o }),
            Piece::Crossed(Strand { to: n + 1, ..*v }, Strand { from: n + 2, ..*o }),
            Piece::Crossed(Strand { from: n, ..*u }, Strand { to: n + 3, ..*p }),
            Piece::Crossed(Strand { from: n + 1, ..*v }, Strand { from: n + 3, ..*p }),
        ]),
        _ => Ok(()),
    }
}

/// The grid that stands for a crossing, behind the pieces; gives the next inner label.
fn push_doubled(
    doubling: Doubling,
    names: &[u32],
    first: u32,
    n: u32,
    under: Strand,
    over: Strand,
    into: &mut Vec<Piece>,
) -> Result<u32, AllocError>
    requires labels { first + length names.now < 2 ^ 32 }
    requires small { n + 4 < 2 ^ 32 }
    ensures pieces { OnOk result (into.new.items ≡ into.old.items ++ grid n (columns (slide_with doubling names.now first) under) (rows (slide_with doubling names.now first) over)) }
    ensures next { IfOk result (λ next. next ≡ n + inner (columns (slide_with doubling names.now first) under) (rows (slide_with doubling names.now first) over)) }
{
    let both_under = ordered(
        under.ahead == doubling.side,
        copy(doubling, names, first, under),
        under,
    );
    let both_over = ordered(
        over.ahead != doubling.side,
        copy(doubling, names, first, over),
        over,
    );
    match (
        under.component == doubling.over,
        over.component == doubling.over,
    ) {
        (false, false) => {
            push_grid(n, &[under], &[over], into)?;
            Ok(n)
        }
        (false, true) => {
            push_grid(n, &[under], &both_over, into)?;
            Ok(n + 1)
        }
        (true, false) => {
            push_grid(n, &both_under, &[over], into)?;
            Ok(n + 1)
        }
        (true, true) => {
            push_grid(n, &both_under, &both_over, into)?;
            Ok(n + 4)
        }
    }
}

/// The pieces with the component doubled. Its labels are `names`; those of the copy count from `first` on, then come inner ones.
pub(crate) fn double(
    alloc: Global,
    doubling: Doubling,
    names: &[u32],
    first: u32,
    pieces: &[Piece],
) -> Result<Vec<Piece>, AllocError>
    requires { first + length names.now + 4 * length pieces.now + 4 < 2 ^ 32 }
    ensures { IfOk result (λ made. made.items ≡ doubled (slide_with doubling names.now first) (first + length names.now) pieces.now) }
{
    let mut made = Vec::new(alloc);
    let mut n = first + names.len() as u32;
    for piece in pieces {
        match piece {
            Piece::Crossed(under, over) => {
                n = push_doubled(doubling, names, first, n, *under, *over, &mut made)?;
            }
            Piece::Free(label) => made.push(Piece::Free(*label))?,
        }
    }
    Ok(made)
}
