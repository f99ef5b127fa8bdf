//! Curls that are tried on coloured diagrams, and what is seen.

use crate::coloured::{lines, planar};
use crate::steps::crossings;
use crate::trials::greatest_label;
use planar_check::Sign;
use root_quantum::Params;
use script_reader::Step;
use std::alloc::Global;
use std::thread::Threads;

/// What is seen of curls on a coloured diagram.
#[derive(Clone, Copy, Debug, PartialEq, Eq)]
pub(crate) struct Curls {
    /// How many lead to values within the limits of the sums: on each edge one of each sign.
    pub accepted: u32,
    /// After how many of these the coloured value is `mu_n` times the one before, or the inverse times it for the sign `-`, and the one
    /// before again where the curl is undone.
    pub multiplied: u32,
}

/// The value times `mu_n` for the sign `+`, times its inverse for the sign `-`.
fn twisted(params: &Params, colour: u32, sign: Sign, value: u64) -> Option<u64> {
    if colour > 8 || value >= params.ring().modulus() {
        return None;
    }
    let exponent = match sign {
        Sign::Plus => 1,
        Sign::Minus => -1,
    };
    Some(params.ring().mul(value, params.twist(colour, exponent)))
}

/// The colour of the edge, and how many crossings the diagram has.
fn found(alloc: Global, text: &[u8], colours: &[u32], edge: u32) -> Option<(u32, u32)> {
    let drawn = planar(alloc, text)?;
    let number = drawn.component_of(edge)?;
    let colour = colours.get(number as usize - 1)?;
    Some((*colour, crossings(drawn.diagram().items())))
}

/// Whether a curl on the edge multiplies the value, and gives it back where it is undone; nothing where a value is past a limit. The crossing
/// of the curl is the last. A curl on a loop is not undone, since the box may stand on the part that goes.
fn is_multiplied<R: Threads + Sync>(
    rt: &R,
    alloc: Global,
    params: &Params,
    text: &[u8],
    colours: &[u32],
    edge: u32,
    sign: Sign,
) -> Option<bool> {
    let (colour, count) = found(alloc, text, colours, edge)?;
    let crossing = count.saturating_add(1);
    let steps = [Step::Curl { edge, sign }, Step::CurlUndo { crossing }];
    let played = if count == 0 { 1 } else { 2 };
    let values = lines(
        rt,
        alloc,
        params,
        planar(alloc, text)?,
        colours,
        &steps[..played],
    )?;
    if values.len() != played + 1 {
        return Some(false);
    }
    let undone = count == 0 || values[played] == values[0];
    Some(undone && twisted(params, colour, sign, values[0]) == Some(values[1]))
}

/// Tries the curls of both signs on every edge.
pub(crate) fn try_curls<R: Threads + Sync>(
    rt: &R,
    alloc: Global,
    params: &Params,
    text: &[u8],
    colours: &[u32],
) -> Option<Curls> {
    let edges = greatest_label(alloc, planar(alloc, text)?.diagram().items()).ok()?;
    let mut seen = Curls {
        accepted: 0,
        multiplied: 0,
    };
    for edge in 0..edges {
        for sign in [Sign::Plus, Sign::Minus] {
            if let Some(multiplied) = is_multiplied(
                rt,
                alloc,
                params,
                text,
                colours,
                edge + 1,
                sign,
            ) {
                seen.accepted = seen.accepted.saturating_add(1);
                seen.multiplied = seen.multiplied.saturating_add(u32::from(multiplied));
            }
        }
    }
    Some(seen)
}
