//! Laws over the definitions alone: the facts that these functions ensure, which do nothing.

ghost use Rattle.text_shapes.specs.Laws.{NumbersAreNumerals};

/// A number of a text is spelled by one to six decimal digits whose first is not 0, and each such run of
/// digits spells one.
pub fn numbers_are_numerals()
    ensures { NumbersAreNumerals }
{}
