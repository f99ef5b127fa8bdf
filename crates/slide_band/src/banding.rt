//! The band of a handle slide.

ghost use Rattle.std.specs.Prelude.{◌≡◌, IfOk};
ghost use Rattle.slide_strands.specs.Doubling.{banded};

use crate::relabelling::Relabelling;
use slide_strands::Piece;
use std::alloc::{AllocError, Global};

/// The pieces with the labels e and g exchanged at the ends that are left, or, where `back` is false, entered.
pub(crate) fn band(
    alloc: Global,
    back: bool,
    e: u32,
    g: u32,
    pieces: &[Piece],
) -> Result<Vec<Piece>, AllocError>
    ensures { IfOk result (λ made. made.items ≡ banded back e g pieces.now) }
{
    Relabelling::Exchange(e, g).pieces_on_side(alloc, back, pieces)
}
