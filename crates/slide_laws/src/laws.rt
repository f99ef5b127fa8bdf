//! The laws of handle slides: each function has an empty body, and its contract is the law. They are stated in `specs/Laws.antt`.

ghost use Rattle.slide_laws.specs.Laws.{SlideCongruence, SlideInertia, SlideInvertible, SlidIsFramed};

/// What a slide gives is a planar framed diagram with the same components.
pub fn slid_is_framed()
    ensures { SlidIsFramed }
{}

/// The linking matrix after a slide is C-transposed times the old one times C, for the matrix C of the slide.
pub fn slide_congruence()
    ensures { SlideCongruence }
{}

/// The matrix of a slide has an inverse of whole numbers.
pub fn slide_invertible()
    ensures { SlideInvertible }
{}

/// The inertia of the linking matrix stays.
pub fn slide_inertia()
    ensures { SlideInertia }
{}
