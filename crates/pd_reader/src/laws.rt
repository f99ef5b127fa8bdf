//! Laws over the definitions alone: the facts that these functions ensure, which do nothing.

ghost use Rattle.pd_reader.specs.Laws.{DiagramsAreUnrefused, ReadingsAreUnique, ReadingsExist, TextsAreUnique, WrittenIsRead};

/// There is no reason against the items of a diagram or a net. So `Diagram::new` answers them with a
/// diagram, or memory runs out, and a text of them is read.
pub fn diagrams_are_unrefused()
    ensures { DiagramsAreUnrefused }
{}

/// Where each label of a diagram is at most 999,999, its canonical spelling is a text of it. So
/// `read_pd` of what `write_pd` wrote gives the same diagram, or memory runs out.
pub fn written_is_read()
    ensures { WrittenIsRead }
{}

/// Bytes are a text of at most one list of items, of a diagram and of a net.
pub fn texts_are_unique()
    ensures { TextsAreUnique }
{}

/// All bytes have a reading, as a diagram and as a net: they are a text of items with no reason against them,
/// or they are refused, at the byte where they stop being the beginning of a text or for the first reason
/// against their items. With `readings_are_unique` there is exactly one.
pub fn readings_exist()
    ensures { ReadingsExist }
{}

/// All bytes have at most one reading as a diagram, and one as a net.
pub fn readings_are_unique()
    ensures { ReadingsAreUnique }
{}
