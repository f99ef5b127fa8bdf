//! Steps that are tried on coloured diagrams, and what is seen.

use crate::steps::{Sizes, all_steps, crossings};
use crate::trials::greatest_label;
use braid_closures::closure;
use braid_trace::read_braid;
use colour_share::NoGate;
use move_script::GREATEST_LABEL;
use pd_reader::read_pd;
use planar_check::{Planar, check};
use root_quantum::Params;
use script_reader::Step;
use script_values::{Coloured, Drawing, NEW_LABELS, script_values};
use skein_network::check_colours;
use std::alloc::Global;
use std::thread::Threads;

/// What is seen of Reidemeister's second and third moves on a coloured diagram.
#[derive(Clone, Copy, Debug, PartialEq, Eq)]
pub(crate) struct Kept {
    /// How many are accepted, and lead to a value within the limits of the sums.
    pub accepted: u32,
    /// After how many of these the coloured value is the one before.
    pub kept: u32,
}

/// The planar diagram of a text, or the closure of the braid of one.
pub(crate) fn planar(alloc: Global, text: &[u8]) -> Option<Planar> {
    if let Ok(braid) = read_braid(alloc, text) {
        return check(alloc, closure(alloc, &braid).ok()?).ok();
    }
    check(alloc, read_pd(alloc, text).ok()?).ok()
}

/// The coloured values of the diagrams of a script of at most two steps.
pub(crate) fn lines<R: Threads + Sync>(
    rt: &R,
    alloc: Global,
    params: &Params,
    planar: Planar,
    colours: &[u32],
    steps: &[Step],
) -> Option<Vec<u64>> {
    let greatest = greatest_label(alloc, planar.diagram().items()).ok()?;
    if greatest > GREATEST_LABEL - 2 * NEW_LABELS || steps.len() > 2 {
        return None;
    }
    if colours.len() != planar.components() as usize {
        return None;
    }
    match check_colours(colours, planar.components(), params.top_colour()) {
        Ok(()) => {}
        Err(_) => return None,
    }
    let coloured = Coloured::new(planar, Vec::from_slice(alloc, colours).ok()?);
    script_values(
        rt,
        alloc,
        params,
        Drawing::Coloured(coloured),
        steps,
        &NoGate,
    )
    .ok()
}

/// Tries every `R2`, `R2Undo` and `R3`.
pub(crate) fn try_coloured<R: Threads + Sync>(
    rt: &R,
    alloc: Global,
    params: &Params,
    text: &[u8],
    colours: &[u32],
) -> Option<Kept> {
    let drawn = planar(alloc, text)?;
    let sizes = Sizes {
        edges: greatest_label(alloc, drawn.diagram().items()).ok()?,
        crossings: crossings(drawn.diagram().items()),
    };
    let mut seen = Kept {
        accepted: 0,
        kept: 0,
    };
    let steps = all_steps(alloc, sizes).ok()?;
    for step in &steps {
        let is_move = match step {
            Step::R2 { over: _, under: _ } => true,
            Step::R2Undo {
                first: _,
                second: _,
            } => true,
            Step::R3 {
                first: _,
                second: _,
                third: _,
            } => true,
            _ => false,
        };
        if is_move {
            if let Some(values) = lines(
                rt,
                alloc,
                params,
                planar(alloc, text)?,
                colours,
                &[*step],
            ) {
                seen.accepted = seen.accepted.saturating_add(1);
                seen.kept = seen
                    .kept
                    .saturating_add(u32::from(values.first() == values.last()));
            }
        }
    }
    Some(seen)
}
