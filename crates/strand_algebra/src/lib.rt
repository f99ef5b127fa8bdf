//! The Temperley-Lieb algebra: definitions, and the laws of its product and of its projectors.
//!
//! The definitions stand in `specs/StrandPairings.antt`, `specs/Noncrossing.antt`, `specs/Elements.antt` and
//! `specs/Projectors.antt`; the laws are functions with empty bodies in `laws.rt`.
#![tactic(auto)]

mod laws;

pub use laws::{
    all_noncrossing_pairings, associative_elements, associative_pairings, closure_by_gluing,
    collected_coefficients, collected_terms, elements_by_coefficients, hook_on_projector,
    hooked_strands, identity_above, identity_below, one_more_strand, one_projector,
    product_by_gluing, product_of_noncrossing_pairings, product_of_pairings, projector_closed,
    projector_found, projector_half_turned, projector_is_element, projector_mirrored,
    projector_on_hook, projector_squared, straight_strands, straight_strands_change_nothing,
    strand_seam,
};
