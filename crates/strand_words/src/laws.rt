//! The laws of words: each function has an empty body, and its contract is the law. They are stated in `specs/Laws.antt`.

ghost use Rattle.strand_words.specs.Laws.{RaisedWordsLaw, SameWordLaw, LetterSecondMoveLaw, LetterThirdMoveLaw, FarLettersLaw, InverseWordLaw, BundleSecondMoveLaw, BundleThirdMoveLaw, GridColumnsLaw, ClosedGridLaw, BoxTwistLaw, BoxCurlLaw};

/// To be the same word is an equivalence, kept on both sides.
pub fn same_word()
    ensures { SameWordLaw }
{}

/// The second move: a crossing and its inverse.
pub fn letter_second_move()
    ensures { LetterSecondMoveLaw }
{}

/// The third move, of strands at any heights.
pub fn letter_third_move()
    ensures { LetterThirdMoveLaw }
{}

/// Letters far apart change places.
pub fn far_letters()
    ensures { FarLettersLaw }
{}

/// A word of crossings and its inverse.
pub fn inverse_word()
    ensures { InverseWordLaw }
{}

/// The second move of bundles.
pub fn bundle_second_move()
    ensures { BundleSecondMoveLaw }
{}

/// The third move of bundles at any heights.
pub fn bundle_third_move()
    ensures { BundleThirdMoveLaw }
{}

/// A grid by columns in place of rows.
pub fn grid_columns()
    ensures { GridColumnsLaw }
{}

/// A crossing of bundles, closed on the left, is a twist times a factor.
pub fn closed_grid()
    ensures { ClosedGridLaw }
{}

/// A twist beside a box.
pub fn box_twist()
    ensures { BoxTwistLaw }
{}

/// A curl of a bundle beside a box.
pub fn box_curl()
    ensures { BoxCurlLaw }
{}

/// The same words further right are the same.
pub fn raised_words()
    ensures { RaisedWordsLaw }
{}
