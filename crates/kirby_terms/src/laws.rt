//! The law of the inverses of `Omega+` and `Omega-`: a function with an empty body, whose contract is the law of `specs/Laws.antt`.

ghost use Rattle.kirby_terms.specs.Laws.{OmegaInverseLaw};

/// `Omega+` and `Omega-` have an inverse exactly where they share no factor with m, and then the definition's inverse, which is
/// found by trying each residue, is one.
pub fn omega_inverses()
    ensures { OmegaInverseLaw }
{}
