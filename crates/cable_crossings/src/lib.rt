//! Cabled crossings at any names: what crossings of bundles count as, in every network in which each name stands twice.
//!
//! The definitions are those of `cables`; the laws are functions with empty bodies in `laws.rt`.
#![tactic(auto)]

mod laws;

pub use laws::{bigon_at_slots, bigon_of_cables, strands_through};
