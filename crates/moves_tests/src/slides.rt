//! Slides that are tried on framed diagrams, and what is seen.

use crate::trials::greatest_label;
use colour_share::NoGate;
use move_script::GREATEST_LABEL;
use pd_reader::read_pd;
use planar_check::{Framed, check};
use root_quantum::Params;
use script_reader::Step;
use script_values::{Drawing, NEW_LABELS, script_values};
use std::alloc::Global;
use std::thread::Threads;

/// What is seen of the slides of a diagram.
#[derive(Clone, Copy, Debug, PartialEq, Eq)]
pub(crate) struct Slides {
    /// How many are accepted.
    pub accepted: u32,
    /// After how many of these the surgery value is the one before.
    pub kept: u32,
}

/// The diagram of a text, with these framings.
fn framed(alloc: Global, text: &[u8], framings: &[i64]) -> Option<Framed> {
    let planar = check(alloc, read_pd(alloc, text).ok()?).ok()?;
    Framed::new(alloc, planar, framings).ok()
}

/// The surgery values before and after a slide.
fn around<R: Threads + Sync>(
    rt: &R,
    alloc: Global,
    params: &Params,
    framed: Framed,
    slide: Step,
) -> Option<Vec<u64>> {
    let greatest = greatest_label(alloc, framed.planar().diagram().items()).ok()?;
    if greatest > GREATEST_LABEL - NEW_LABELS {
        return None;
    }
    let steps = [slide];
    script_values(rt, alloc, params, Drawing::Framed(framed), &steps, &NoGate).ok()
}

/// Tries the slides of each edge up to the greatest along each other one.
pub(crate) fn try_slides<R: Threads + Sync>(
    rt: &R,
    alloc: Global,
    params: &Params,
    text: &[u8],
    framings: &[i64],
    greatest: u32,
) -> Option<Slides> {
    let mut seen = Slides {
        accepted: 0,
        kept: 0,
    };
    for edge in 0..greatest {
        for along in 0..greatest {
            let slide = Step::Slide {
                edge: edge + 1,
                along: along + 1,
            };
            let framed = framed(alloc, text, framings)?;
            if let Some(values) = around(rt, alloc, params, framed, slide) {
                seen.accepted = seen.accepted.saturating_add(1);
                seen.kept = seen
                    .kept
                    .saturating_add(u32::from(values.first() == values.last()));
            }
        }
    }
    Some(seen)
}
