//! The laws of planar diagrams as rotation systems: each function has an empty body, and its contract is the law. They are stated in
//! `specs/Laws.antt`.

ghost use Rattle.planar_forms.specs.Laws.{CountedLaw, FewFacesLaw, FlatDiagramLaw, PlanarFormLaw};

/// What planar_check counts is what the diagram's rotation system has.
pub fn counted()
    ensures { CountedLaw }
{}

/// No diagram has more faces than a planar one with as many crossings, edges and pieces.
pub fn few_faces()
    ensures { FewFacesLaw }
{}

/// A diagram is planar exactly where its rotation system is flat.
pub fn flat_diagram()
    ensures { FlatDiagramLaw }
{}

/// A diagram is planar exactly where it has as many faces as crossings, and two more for each piece.
pub fn planar_form()
    ensures { PlanarFormLaw }
{}
