//! Labels changed at the ends on one side.

ghost use Rattle.std.specs.Prelude.{◌≡◌, IfOk};
ghost use Rattle.slide_strands.specs.Doubling.{on_side, piece_on_side, pieces_on_side};
ghost use Rattle.slide_band.specs.Relabellings.{renamed};

use slide_strands::{Piece, Strand};
use std::alloc::{AllocError, Global};

/// A change of labels.
#[derive(Clone, Copy, Debug)]
pub(crate) enum Relabelling {
    /// Both labels are exchanged.
    Exchange(u32, u32),
    /// The second label takes the place of the first.
    Replace(u32, u32),
}

impl Relabelling {
    /// The label that it makes of one.
    fn renamed(self, label: u32) -> u32
        ensures { result ≡ renamed self label }
    {
        match self {
            Relabelling::Exchange(first, second) => {
                if label == first {
                    second
                } else if label == second {
                    first
                } else {
                    label
                }
            }
            Relabelling::Replace(first, second) => { if label == first { second } else { label } }
        }
    }

    /// The strand with the label changed at its end on one side: the one that is left, or, where `back` is false, entered.
    fn on_side(self, back: bool, strand: Strand) -> Strand
        ensures { result ≡ on_side back (renamed self) strand }
    {
        if strand.ahead == back {
            Strand {
                to: self.renamed(strand.to),
                ..strand
            }
        } else {
            Strand {
                from: self.renamed(strand.from),
                ..strand
            }
        }
    }

    /// The piece with the labels changed at the ends on one side.
    fn piece_on_side(self, back: bool, piece: Piece) -> Piece
        ensures { result ≡ piece_on_side back (renamed self) piece }
    {
        match piece {
            Piece::Crossed(under, over) => {
                Piece::Crossed(self.on_side(back, under), self.on_side(back, over))
            }
            Piece::Free(label) => Piece::Free(label),
        }
    }

    /// The pieces with the labels changed at the ends on one side.
    pub(crate) fn pieces_on_side(
        self,
        alloc: Global,
        back: bool,
        pieces: &[Piece],
    ) -> Result<Vec<Piece>, AllocError>
        ensures { IfOk result (λ made. made.items ≡ pieces_on_side back (renamed self) pieces.now) }
    {
        pieces
            .iter()
            .map(|piece| self.piece_on_side(back, *piece))
            .collect(alloc)
    }
}
