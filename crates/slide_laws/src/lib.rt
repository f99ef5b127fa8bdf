//! Handle slides of framed diagrams: what a slide gives and why it is refused (`specs/Slides.antt`), and the law by which it
//! transforms the linking matrix. The code is that of `slide_band`.
#![tactic(auto)]

mod fault;
mod laws;

pub use fault::SlideFault;
pub use laws::{slid_is_framed, slide_congruence, slide_inertia, slide_invertible};
