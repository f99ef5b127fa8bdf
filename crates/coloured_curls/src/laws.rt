//! The laws of curls of cables: each function has an empty body, and its contract is the law. They are stated in `specs/Laws.antt`.

ghost use Rattle.coloured_curls.specs.Laws.{BoxedCrossingLaw, ClosedCrossingLaw, CurlBesideBoxLaw, BoxedEdgeLaw, BoxedLoopLaw, BoxlessEdgeLaw, CurlLaw, CurlUndoLaw};

/// A crossing of two neighbouring strands beside a projector's box is a factor, its weight of going straight on; the box then has the
/// names behind the crossing (Lickorish, ch. 13).
pub fn boxed_crossing()
    ensures { BoxedCrossingLaw }
{}

/// A crossing of two bundles whose left strands close is a full twist of the right bundle, times a factor for each strand: the cable of a
/// curl, at any names.
pub fn closed_crossing()
    ensures { ClosedCrossingLaw }
{}

/// `Curl` on the edge that has its component's box multiplies the coloured value by `mu_n`, or by its inverse for the sign `-`, for a component
/// of colour n from 2 to 8 (Lickorish, ch. 13).
pub fn boxed_edge()
    ensures { BoxedEdgeLaw }
{}

/// The cabled crossing of a curl beside a projector's box is `mu_n`, or its inverse, times the strands, at any names.
pub fn curl_beside_box()
    ensures { CurlBesideBoxLaw }
{}

/// `Curl` on a Loop of colour n from 2 to 8 multiplies the coloured value by `mu_n`, or by its inverse for the sign `-`.
pub fn boxed_loop()
    ensures { BoxedLoopLaw }
{}

/// `Curl` on an edge without a box, of a component of colour n from 2 to 8, multiplies the coloured value by `mu_n`, or by its inverse for the sign `-`: the
/// crossings of its twist walk along the component to the box.
pub fn boxless_edge()
    ensures { BoxlessEdgeLaw }
{}

/// `Curl` on any edge or Loop of a component of colour n, from 0 to 8, multiplies the coloured value by `mu_n`, or by its inverse for the sign `-`.
pub fn curl()
    ensures { CurlLaw }
{}

/// `CurlUndo` of a curl on a component of colour n, from 0 to 8, multiplies the coloured value by the inverse of what the curl did, where no box
/// lies inside the curl.
pub fn curl_undo()
    ensures { CurlUndoLaw }
{}
