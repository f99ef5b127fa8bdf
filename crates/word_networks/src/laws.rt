//! The laws: each function has an empty body, and its contract is the law.

ghost use Rattle.word_networks.specs.Laws.{StepSumsLaw, SameStepsLaw, SameWordsLaw, GridsOfStepsLaw, GridWordsLaw, TurnedGridsLaw, CabledWordsLaw, CabledThirdMoveLaw, CabledSecondMoveLaw, BoxStepsLaw, CabledCurlLaw};

/// The sum of a network of steps over the patterns of its open names is the steps' sum over matings.
pub fn step_sums()
    ensures { StepSumsLaw }
{}

/// Steps that are alike in sums over matings, and end in the same points with the same names, are alike everywhere.
pub fn same_steps()
    ensures { SameStepsLaw }
{}

/// Networks of words that are the same, between the same names, are the same everywhere, whatever the names within.
pub fn same_words()
    ensures { SameWordsLaw }
{}

/// A cabled crossing is the crossing of bundles as steps, and leaves its outer names.
pub fn grids_of_steps()
    ensures { GridsOfStepsLaw }
{}

/// The steps of a grid spell its word.
pub fn grid_words()
    ensures { GridWordsLaw }
{}

/// A cabled crossing read from the east is the same crossing with the weights exchanged.
pub fn turned_grids()
    ensures { TurnedGridsLaw }
{}

/// Cabled crossings on one another whose words are the same are the same everywhere.
pub fn cabled_words()
    ensures { CabledWordsLaw }
{}

/// The coloured third move.
pub fn cabled_third_move()
    ensures { CabledThirdMoveLaw }
{}

/// The coloured second move.
pub fn cabled_second_move()
    ensures { CabledSecondMoveLaw }
{}

/// The sum over patterns of a box before steps is the box's sum of the steps' sums.
pub fn box_steps()
    ensures { BoxStepsLaw }
{}

/// The coloured curl.
pub fn cabled_curl()
    ensures { CabledCurlLaw }
{}
