//! The directed pieces of a diagram, and the items of pieces.

ghost use Rattle.std.specs.Prelude.{◌≡◌, ◌<◌, ◌≤◌, ◌+◌, ◌*◌, true, length, slice_index, IfOk};
ghost use Rattle.planar_check.specs.Places.{place_labels};
ghost use Rattle.planar_check.specs.Components.{number_of};
ghost use Rattle.slide_strands.specs.declared.strand.Piece.TheVariants.{Crossed};
ghost use Rattle.slide_laws.specs.Directed.{under_strand, over_strand, directed, item_of, items_of};
ghost use Rattle.slide_laws.specs.Slides.{is_edge};

use pd_reader::Item;
use planar_check::Planar;
use slide_strands::{Piece, Strand};
use std::alloc::{AllocError, Global};

/// The component of a label of the diagram.
pub(crate) fn component_of(planar: &Planar, label: u32) -> u32
    requires { is_edge planar.now label ≡ true }
    ensures { result ≡ number_of planar.now label }
{
    match planar.component_of(label) {
        Some(component) => component,
        None => unreachable!(),
    }
}

/// The strands of the crossing with this number, from 0, and these slots.
fn crossed(planar: &Planar, crossing: u32, slots: &[u32; 4]) -> Piece
    requires small { crossing ≤ 256 }
    requires within { 4 * crossing + 3 < length (place_labels planar.now) }
    requires under { is_edge planar.now (slice_index slots.now 0) ≡ true }
    requires over { is_edge planar.now (slice_index slots.now 1) ≡ true }
    ensures { result ≡ Crossed (under_strand planar.now crossing slots.now) (over_strand planar.now crossing slots.now) }
{
    let [a, b, c, d] = *slots;
    let under = Strand {
        from: a,
        to: c,
        ahead: planar.enters(4 * crossing),
        component: component_of(planar, a),
    };
    let over = Strand {
        from: d,
        to: b,
        ahead: planar.enters(4 * crossing + 3),
        component: component_of(planar, b),
    };
    Piece::Crossed(under, over)
}

/// The pieces of a diagram, each strand walked as its component is.
pub(crate) fn directed(alloc: Global, planar: &Planar) -> Result<Vec<Piece>, AllocError>
    ensures { IfOk result (λ pieces. pieces.items ≡ directed planar.now) }
{
    let mut pieces = Vec::new(alloc);
    let mut crossing: u32 = 0;
    for item in planar.diagram().items() {
        match item {
            Item::X(slots) => {
                pieces.push(crossed(planar, crossing, slots))?;
                crossing += 1;
            }
            Item::Loop(label) => pieces.push(Piece::Free(*label))?,
        }
    }
    Ok(pieces)
}

/// The item of a piece.
fn item_of(piece: Piece) -> Item
    ensures { result ≡ item_of piece }
{
    match piece {
        Piece::Crossed(under, over) => Item::X([under.from, over.to, under.to, over.from]),
        Piece::Free(label) => Item::Loop(label),
    }
}

/// The items of the pieces.
pub(crate) fn items_of(alloc: Global, pieces: &[Piece]) -> Result<Vec<Item>, AllocError>
    ensures { IfOk result (λ items. items.items ≡ items_of pieces.now) }
{
    pieces.iter().map(|piece| item_of(*piece)).collect(alloc)
}
