//! What a move makes of a list of items.

ghost use Rattle.std.specs.Prelude.{◌≡◌};
ghost use Rattle.diagram_moves.specs.Moves.{finished};

use diagram_moves::{Factor, MoveFault};
use pd_reader::{Item, MOST_ITEMS};
use std::marker::Model;

/// The factor of a move that keeps the bracket.
pub(crate) const PLAIN: Factor = Factor { curl: 0, circle: 0 };

/// The items that a move gives, and its factor.
#[derive(Drop, Debug)]
pub(crate) struct Changed {
    pub items: Vec<Item>,
    pub factor: Factor,
}

impl Model for Changed {
    ghost use Rattle.diagram_moves.specs.Steps.{Moved};

    ghost Value = { Moved };

    ghost view = { λ changed. record { items = changed.items.items; factor = changed.factor } };

    ghost invariant = { λ changed. Unit {0} };
}

/// The items with the factor, where there are not too many.
pub(crate) fn finished(items: Vec<Item>, factor: Factor) -> Result<Changed, MoveFault>
    ensures { result ≡ finished factor items.items }
{
    if items.len() > MOST_ITEMS as usize {
        return Err(MoveFault::TooMany { limit: MOST_ITEMS });
    }
    Ok(Changed { items, factor })
}
