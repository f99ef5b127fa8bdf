//! Tests of moves on drawn diagrams: every step that is accepted keeps the bracket up to its factor, none is refused because its result is
//! not planar, and steps that are taken back give the diagram again; and of slides of framed diagrams, which keep the surgery value.
#![tactic(auto)]

#[cfg(test)]
mod coloured;
#[cfg(test)]
mod curls;
#[cfg(test)]
mod slides;
#[cfg(test)]
mod steps;
#[cfg(test)]
mod tests;
#[cfg(test)]
mod trials;
