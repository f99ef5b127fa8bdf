//! The laws of each projector. The functions compute nothing: after a call the caller knows the law of that projector.

ghost use Rattle.wenzl_table.specs.Laws.{HookAboveGivesZero, HookBelowGivesZero, IsOwnSquare, ClosesToDelta, IsMirrored, IsHalfTurned};

use crate::projector::Projector;

/// A hook on a projector gives zero. It takes no memory.
pub fn hook_above(projector: &Projector)
    ensures { HookAboveGivesZero projector.now }
{
    let _element = projector.element();
}

/// A projector on a hook gives zero. It takes no memory.
pub fn hook_below(projector: &Projector)
    ensures { HookBelowGivesZero projector.now }
{
    let _element = projector.element();
}

/// A projector is its own square. It takes no memory.
pub fn own_square(projector: &Projector)
    ensures { IsOwnSquare projector.now }
{
    let _element = projector.element();
}

/// The closure of the projector of colour n is `Delta_n`. It takes no memory.
pub fn closure(projector: &Projector)
    ensures { ClosesToDelta projector.now }
{
    let _element = projector.element();
}

/// A projector has one coefficient for a pairing and its mirror image, top for bottom. It takes no memory.
pub fn mirror_image(projector: &Projector)
    ensures { IsMirrored projector.now }
{
    let _element = projector.element();
}

/// A projector has one coefficient for a pairing and what half a turn makes of it. It takes no memory.
pub fn half_turn(projector: &Projector)
    ensures { IsHalfTurned projector.now }
{
    let _element = projector.element();
}
