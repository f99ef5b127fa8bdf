//! Residues of whole numbers modulo m, their powers and orders, and the tool with which identities between
//! them are proved: a normaliser of polynomial expressions with its soundness lemma (proofs/).
#![tactic(auto)]

mod laws;

pub use laws::{
    inverse_unique, order_up_to_limit, power_mod_order, residue_congruent, residue_in_range,
    residue_of_natural, same_residues, signed_power_sum, unity_at_multiples,
};
