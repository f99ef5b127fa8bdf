//! The labels and the items of pieces.

ghost use Rattle.std.specs.Prelude.{◌≡◌, ◌≤◌, ◌*◌, length, IfOk};
ghost use Rattle.slide_strands.specs.Strands.{strands};
ghost use Rattle.slide_laws.specs.Slides.{strand_labels};

use slide_strands::Piece;
use std::alloc::{AllocError, Global};

/// The labels of a component at its strands.
pub(crate) fn strand_labels(
    alloc: Global,
    component: u32,
    pieces: &[Piece],
) -> Result<Vec<u32>, AllocError>
    ensures labels { IfOk result (λ labels. labels.items ≡ strand_labels component (strands pieces.now)) }
    ensures few { IfOk result (λ labels. length labels.items ≤ 4 * length pieces.now) }
{
    let mut labels = Vec::new(alloc);
    for piece in pieces {
        if let Piece::Crossed(under, over) = piece {
            if under.component == component {
                labels.extend_from_slice(&[under.from, under.to])?;
            }
            if over.component == component {
                labels.extend_from_slice(&[over.from, over.to])?;
            }
        }
    }
    Ok(labels)
}
