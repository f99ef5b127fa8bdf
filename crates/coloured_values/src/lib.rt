//! Values of coloured diagrams, Kirby sums and surgery values: definitions, and the laws on which blow-ups rest.
#![tactic(auto)]

mod laws;

pub use laws::{
    added_component, added_framed_loop, all_colours_one, blow_up_keeps_surgery, blown_up_matrix,
    cabled_diagram_is_network, net_of_diagram,
};
