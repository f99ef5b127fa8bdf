//! The laws of cables: each function has an empty body, and its contract is the law. They are stated in `specs/Laws.antt`.

ghost use Rattle.cables.specs.Laws.{CableIsNetworkLaw, NetCableIsNetworkLaw, ProjectorsAreBoxesLaw, PlainCableLaw, RenamedCableLaw, OtherGroupsLaw, ExchangedPlacesLaw, LoopOfStrandsLaw, AddedLoopLaw};

/// The cable of a net whose colours are at most 8 and fit its items is a network within the limits of the types.
pub fn cable_is_network()
    ensures { CableIsNetworkLaw }
{}

/// The cable of a net is a network where no crossing changes a colour and each vertex is admissible.
pub fn net_cable_is_network()
    ensures { NetCableIsNetworkLaw }
{}

/// The terms of a projector pair all ends of a box, with weights below m.
pub fn projectors_are_boxes()
    ensures { ProjectorsAreBoxesLaw }
{}

/// With all colours 1 the cable of a diagram is the network of its bracket.
pub fn plain_cable()
    ensures { PlainCableLaw }
{}

/// Other names for the strands, and other numbers of the items, give the cable with other names.
pub fn renamed_cable()
    ensures { RenamedCableLaw }
{}

/// Items that stand at other group numbers have the same nodes, but for these numbers; and these change no value (`groups` of
/// `piece_laws`).
pub fn other_groups()
    ensures { OtherGroupsLaw }
{}

/// Where the two places of some labels are exchanged, the value stays.
pub fn exchanged_places()
    ensures { ExchangedPlacesLaw }
{}

/// A loop of n strands is worth `Delta_n` (Lickorish, ch. 13).
pub fn loop_of_strands()
    ensures { LoopOfStrandsLaw }
{}

/// A loop with a new label behind the items multiplies the value by `Delta_n`.
pub fn added_loop()
    ensures { AddedLoopLaw }
{}
