//! Laws over the definitions alone: the facts that these functions ensure, which do nothing.

ghost use Rattle.braid_trace.specs.Laws.{ReadingsAreUnique, ReadingsExist};

/// All bytes have a reading as a braid: they are a text of one with no reason against it, or they are refused,
/// at the byte where they stop being the beginning of a text or for the first reason against what they spell.
/// With `readings_are_unique` there is exactly one.
pub fn readings_exist()
    ensures { ReadingsExist }
{}

/// All bytes have at most one reading as a braid.
pub fn readings_are_unique()
    ensures { ReadingsAreUnique }
{}
