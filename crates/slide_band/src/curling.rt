//! Curls on an edge.

ghost use Rattle.std.specs.Prelude.{◌≡◌, ◌+◌, ◌*◌, ◌<◌, ◌^◌, IfOk};
ghost use Rattle.slide_strands.specs.Doubling.{curl_under, curl_over, curled, curls};

use crate::relabelling::Relabelling;
use slide_strands::{Piece, Strand};
use std::alloc::{AllocError, Global};

/// The under strand of the curl's crossing.
fn curl_under(f: u32, j: u32, n: u32, entered: bool) -> Strand
    ensures { result ≡ curl_under f j n entered }
{
    Strand {
        from: f,
        to: n,
        ahead: !entered,
        component: j,
    }
}

/// The over strand of the curl's crossing.
fn curl_over(plus: bool, j: u32, n: u32, entered: bool) -> Strand
    requires { n + 1 < 2 ^ 32 }
    ensures { result ≡ curl_over plus j n entered }
{
    if plus {
        Strand {
            from: n,
            to: n + 1,
            ahead: !entered,
            component: j,
        }
    } else {
        Strand {
            from: n + 1,
            to: n,
            ahead: entered,
            component: j,
        }
    }
}

/// The pieces with a curl on the edge f of component j, whose first end is entered or not; its new labels are n and n + 1.
fn curl(
    alloc: Global,
    plus: bool,
    f: u32,
    j: u32,
    entered: bool,
    n: u32,
    pieces: &[Piece],
) -> Result<Vec<Piece>, AllocError>
    requires { n + 1 < 2 ^ 32 }
    ensures { IfOk result (λ made. made.items ≡ curled plus f j entered n pieces.now) }
{
    let mut made = Relabelling::Replace(f, n + 1).pieces_on_side(alloc, entered, pieces)?;
    made.push(Piece::Crossed(curl_under(f, j, n, entered), curl_over(plus, j, n, entered)))?;
    Ok(made)
}

/// The pieces with so many curls on the edge f of component j, with new labels from n on.
pub(crate) fn curls(
    alloc: Global,
    plus: bool,
    f: u32,
    j: u32,
    entered: bool,
    count: u32,
    n: u32,
    pieces: Vec<Piece>,
) -> Result<Vec<Piece>, AllocError>
    requires { n + 2 * count + 2 < 2 ^ 32 }
    ensures { IfOk result (λ made. made.items ≡ curls plus f j entered count n pieces.items) }
{
    let mut made = pieces;
    let mut next = n;
    for i in 0..count {
        made = curl(alloc, plus, f, j, entered, next, &made)?;
        next += 2;
    }
    Ok(made)
}
