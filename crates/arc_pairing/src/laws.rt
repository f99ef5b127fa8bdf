//! The law of codes: an empty body, whose contract is the law. It is stated in `specs/Codes.antt`.

ghost use Rattle.arc_pairing.specs.Codes.{OneCodeLaw};

/// Pairings with one code are one.
pub fn one_code()
    ensures { OneCodeLaw }
{}
