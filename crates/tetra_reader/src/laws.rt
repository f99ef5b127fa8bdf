//! Laws over the definitions alone: the facts that these functions ensure, which do nothing.

ghost use Rattle.tetra_reader.specs.Laws.{ReadingsAreUnique, ReadingsExist};

/// All bytes have a reading as tetrahedra: they are a text of items with no reason against them, or they are
/// refused, at the byte where they stop being the beginning of a text or for the first reason against what they
/// spell. With `readings_are_unique` there is exactly one.
pub fn readings_exist()
    ensures { ReadingsExist }
{}

/// All bytes have at most one reading as tetrahedra.
pub fn readings_are_unique()
    ensures { ReadingsAreUnique }
{}
