//! Laws of pieces that fit diagrams: how arcs close, how nodes may be written and ordered, and the plain moves at any names.
//!
//! The definitions stand in `specs/Arcs.antt`, `specs/Pieces.antt`, `specs/TurnedNodes.antt` and `specs/Corners.antt`; the laws are
//! functions with empty bodies in `laws.rt`.
#![tactic(auto)]

mod laws;

pub use laws::{
    added_around, any_corner, arc_joins, arcs_close, bigon_corners, curl_corner, first_move,
    groups, node_of_arcs, other_terms, permuted_piece, piece_anywhere, quarter_turn, second_move,
    skein_numbers, third_move, triangle_corners, turned_node, weight_is_factor,
};
