//! The laws of coloured diagrams and Kirby sums: each function has an empty body, and its contract is the law. They are stated in
//! `specs/Laws.antt`.

ghost use Rattle.coloured_values.specs.Laws.{CabledDiagramIsNetworkLaw, NetOfDiagramLaw, AllColoursOneLaw, AddedComponentLaw, AddedFramedLoopLaw, BlownUpMatrixLaw, BlowUpKeepsSurgeryLaw};

/// The cable of a diagram is a network within the limits of the types.
pub fn cabled_diagram_is_network()
    ensures { CabledDiagramIsNetworkLaw }
{}

/// The net of a diagram, with the colours of the components, has the diagram's cable where both have the same boxes.
pub fn net_of_diagram()
    ensures { NetOfDiagramLaw }
{}

/// With all colours 1 the value is the bracket.
pub fn all_colours_one()
    ensures { AllColoursOneLaw }
{}

/// A loop with a new label is one component more, the last, and multiplies the value by `Delta_n`.
pub fn added_component()
    ensures { AddedComponentLaw }
{}

/// A framed loop with a new label multiplies the Kirby sum by the sum of `Delta_n^2 mu_n^e` over the colours n.
pub fn added_framed_loop()
    ensures { AddedFramedLoopLaw }
{}

/// A blow-up borders the linking matrix.
pub fn blown_up_matrix()
    ensures { BlownUpMatrixLaw }
{}

/// A blow-up keeps the surgery value (Kirby's first move).
pub fn blow_up_keeps_surgery()
    ensures { BlowUpKeepsSurgeryLaw }
{}
