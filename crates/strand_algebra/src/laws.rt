//! The laws of the Temperley-Lieb algebra: each function has an empty body, and its contract is the law. They are stated in
//! `specs/Laws.antt` and `specs/GluedProducts.antt`.

ghost use Rattle.strand_algebra.specs.GluedProducts.{ProductByGluing, ClosureByGluing, StrandSeam};
ghost use Rattle.strand_algebra.specs.Laws.{ProductOfPairings, ProductOfNoncrossingPairings, StraightStrands, HookedStrands, OneMoreStrand, AssociativePairings, StraightStrandsChangeNothing, AllNoncrossingPairings, CollectedTerms, CollectedCoefficients, ElementsByCoefficients, AssociativeElements, IdentityAbove, IdentityBelow, ProjectorIsElement, OneProjector, ProjectorFound, HookOnProjector, ProjectorOnHook, ProjectorSquared, ProjectorClosed, ProjectorMirrored, ProjectorHalfTurned};

/// A product of pairings is a pairing.
pub fn product_of_pairings()
    ensures { ProductOfPairings }
{}

/// A product of noncrossing pairings is noncrossing.
pub fn product_of_noncrossing_pairings()
    ensures { ProductOfNoncrossingPairings }
{}

/// Straight strands are noncrossing.
pub fn straight_strands()
    ensures { StraightStrands }
{}

/// A hook is noncrossing.
pub fn hooked_strands()
    ensures { HookedStrands }
{}

/// A noncrossing pairing with one more strand on the right is noncrossing.
pub fn one_more_strand()
    ensures { OneMoreStrand }
{}

/// Of three pairings on one another it does not matter which two are put together first.
pub fn associative_pairings()
    ensures { AssociativePairings }
{}

/// Straight strands change no pairing, above it or below it.
pub fn straight_strands_change_nothing()
    ensures { StraightStrandsChangeNothing }
{}

/// The list of noncrossing pairings has each of them once, in dictionary order.
pub fn all_noncrossing_pairings()
    ensures { AllNoncrossingPairings }
{}

/// What is collected from a formal sum is an element.
pub fn collected_terms()
    ensures { CollectedTerms }
{}

/// Its coefficients are the formal sum's modulo m, where each pairing of the sum is noncrossing.
pub fn collected_coefficients()
    ensures { CollectedCoefficients }
{}

/// An element is the one with its coefficients.
pub fn elements_by_coefficients()
    ensures { ElementsByCoefficients }
{}

/// Of three elements in a product it does not matter which two are multiplied first.
pub fn associative_elements()
    ensures { AssociativeElements }
{}

/// The identity on an element changes nothing.
pub fn identity_above()
    ensures { IdentityAbove }
{}

/// An element on the identity is unchanged.
pub fn identity_below()
    ensures { IdentityBelow }
{}

/// A projector is an element.
pub fn projector_is_element()
    ensures { ProjectorIsElement }
{}

/// There is one projector for each modulus, loop value and number of strands.
pub fn one_projector()
    ensures { OneProjector }
{}

/// The projector that is found by trying each residue for an inverse is the projector.
pub fn projector_found()
    ensures { ProjectorFound }
{}

/// A hook on a projector gives zero.
pub fn hook_on_projector()
    ensures { HookOnProjector }
{}

/// A projector on a hook gives zero.
pub fn projector_on_hook()
    ensures { ProjectorOnHook }
{}

/// A projector is its own square.
pub fn projector_squared()
    ensures { ProjectorSquared }
{}

/// The closure of a projector on n strands is `Delta_n`.
pub fn projector_closed()
    ensures { ProjectorClosed }
{}

/// A projector is unchanged where top and bottom change places.
pub fn projector_mirrored()
    ensures { ProjectorMirrored }
{}

/// A projector is unchanged by half a turn.
pub fn projector_half_turned()
    ensures { ProjectorHalfTurned }
{}

/// A product of pairings is a gluing of names: p's bottom has the names of q's top.
pub fn product_by_gluing()
    ensures { ProductByGluing }
{}

/// A closure is a gluing to straight strands at all points.
pub fn closure_by_gluing()
    ensures { ClosureByGluing }
{}

/// In the gluing of two pairings on strands no name stands more than twice, and what is left is known.
pub fn strand_seam()
    ensures { StrandSeam }
{}
