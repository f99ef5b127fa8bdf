//! The steps that are tried on a diagram, and those that take them back.

use pd_reader::Item;
use planar_check::{Planar, Sign};
use script_reader::Step;
use std::alloc::{AllocError, Global};

/// The numbers of a diagram's edges, by their greatest label, and of its crossings.
#[derive(Clone, Copy)]
pub(crate) struct Sizes {
    pub edges: u32,
    pub crossings: u32,
}

/// How many crossings the items have.
pub(crate) fn crossings(items: &[Item]) -> u32 {
    let mut count = 0u32;
    for item in items {
        if let Item::X(_) = item {
            count = count.saturating_add(1);
        }
    }
    count
}

/// Both curls on each edge.
fn push_curls(steps: &mut Vec<Step>, sizes: Sizes) -> Result<(), AllocError> {
    for sign in [Sign::Plus, Sign::Minus] {
        for edge in 0..sizes.edges {
            let edge = edge + 1;
            steps.push(Step::Curl { edge, sign })?;
        }
    }
    Ok(())
}

/// Steps of one edge or crossing, and of none.
fn push_single(steps: &mut Vec<Step>, sizes: Sizes) -> Result<(), AllocError> {
    for sign in [Sign::Plus, Sign::Minus] {
        steps.push(Step::BlowUp { sign })?;
    }
    push_curls(steps, sizes)?;
    for crossing in 0..sizes.crossings {
        let crossing = crossing + 1;
        steps.push(Step::CurlUndo { crossing })?;
    }
    Ok(())
}

/// Steps of two edges.
fn push_pairs(steps: &mut Vec<Step>, sizes: Sizes) -> Result<(), AllocError> {
    for over in 0..sizes.edges {
        for under in 0..sizes.edges {
            steps.push(Step::R2 {
                over: over + 1,
                under: under + 1,
            })?;
        }
    }
    Ok(())
}

/// Steps of two or three crossings.
fn push_triples(steps: &mut Vec<Step>, sizes: Sizes) -> Result<(), AllocError> {
    for first in 0..sizes.crossings {
        for second in 0..sizes.crossings {
            let (first, second) = (first + 1, second + 1);
            steps.push(Step::R2Undo { first, second })?;
            for third in 0..sizes.crossings {
                steps.push(Step::R3 {
                    first,
                    second,
                    third: third + 1,
                })?;
            }
        }
    }
    Ok(())
}

/// Every step on the edges with the labels up to the greatest, and on all crossings.
pub(crate) fn all_steps(alloc: Global, sizes: Sizes) -> Result<Vec<Step>, AllocError> {
    let mut steps = Vec::new(alloc);
    push_single(&mut steps, sizes)?;
    push_pairs(&mut steps, sizes)?;
    push_triples(&mut steps, sizes)?;
    Ok(steps)
}

/// The steps of which one takes a step back, on a result of these sizes, where a curl is the crossing with the number: the one that undoes it,
/// every `R2` for an `R2Undo`, every curl for a `CurlUndo`, and none for a blow-up or a slide.
pub(crate) fn taking_back(
    alloc: Global,
    step: &Step,
    sizes: Sizes,
    curl: u32,
) -> Result<Vec<Step>, AllocError> {
    let mut steps = Vec::new(alloc);
    match *step {
        Step::R2 { over: _, under: _ } => steps.push(Step::R2Undo {
            first: sizes.crossings.saturating_sub(1),
            second: sizes.crossings,
        })?,
        Step::R3 {
            first,
            second,
            third,
        } => steps.push(Step::R3 {
            first,
            second,
            third,
        })?,
        Step::Curl { edge: _, sign: _ } => steps.push(Step::CurlUndo { crossing: curl })?,
        Step::R2Undo {
            first: _,
            second: _,
        } => push_pairs(&mut steps, sizes)?,
        Step::CurlUndo { crossing: _ } => push_curls(&mut steps, sizes)?,
        Step::BlowUp { sign: _ } => {}
        Step::Slide { edge: _, along: _ } => {}
    }
    Ok(steps)
}

/// The number of the crossing that a curl adds: the first that is none of the diagram's, crossing by crossing.
pub(crate) fn new_crossing(before: &Planar, after: &Planar) -> u32 {
    let mut number = 0u32;
    for (old, new) in before.diagram().items().iter().zip(after.diagram().items()) {
        if let Item::X(_) = new {
            number = number.saturating_add(1);
            if let Item::Loop(_) = old {
                return number;
            }
        }
    }
    crossings(after.diagram().items())
}
