//! Laws over the definitions alone: the facts that these functions ensure, which do nothing.

ghost use Rattle.wrt_request.specs.Laws.{NumbersBySpelling, ListsBySpelling};

/// A text writes the number n exactly where n is below 2^64 and the text is the decimal spelling of n: the
/// one that the program itself prints.
pub fn numbers_by_spelling()
    ensures { NumbersBySpelling }
{}

/// A text writes a list exactly where the members are below 10^9 and the text is their decimal spellings
/// with single commas between them.
pub fn lists_by_spelling()
    ensures { ListsBySpelling }
{}
