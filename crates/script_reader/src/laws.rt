//! Laws over the definitions alone: the facts that these functions ensure, which do nothing.

ghost use Rattle.script_reader.specs.Laws.{ScriptReadingsAreUnique, ScriptReadingsExist};

/// All bytes have a reading as a script: they are a text of one with no reason against it, or they are refused,
/// at the byte where they stop being the beginning of a text or for the first reason against what they spell.
/// With `script_readings_are_unique` there is exactly one.
pub fn script_readings_exist()
    ensures { ScriptReadingsExist }
{}

/// All bytes have at most one reading as a script.
pub fn script_readings_are_unique()
    ensures { ScriptReadingsAreUnique }
{}
