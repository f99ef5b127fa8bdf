//! Cables of diagrams and nets: definitions, and the laws on which everything above them rests.
#![tactic(auto)]

mod laws;

pub use laws::{
    added_loop, cable_is_network, exchanged_places, loop_of_strands, net_cable_is_network,
    other_groups, plain_cable, projectors_are_boxes, renamed_cable,
};
