//! The laws of rotation systems: each function has an empty body, and its contract is the law. They are stated in `specs/Laws.antt`.

ghost use Rattle.rotation_parts.specs.Laws.{ExchangeSplitsLaw, ExchangeMergesLaw, GenusLaw, WithoutEdgeLaw, OneMoreEdgeLaw, CutVertexLaw, RetractLaw, MatchedGraphsLaw, CurlCountsLaw, SubdivisionCountsLaw, PushCountsLaw, PairFormLaw, PassedVertexLaw, LoneCurlLaw, SlideCountsLaw, RenamedCountsLaw};

/// A permutation after an exchange of two names of one cycle has one cycle more.
pub fn exchange_splits()
    ensures { ExchangeSplitsLaw }
{}

/// A permutation after an exchange of two names of different cycles has one cycle less.
pub fn exchange_merges()
    ensures { ExchangeMergesLaw }
{}

/// No system has more faces than a flat one: the genus is never negative.
pub fn genus()
    ensures { GenusLaw }
{}

/// A flat system stays flat without one of its edges.
pub fn without_edge()
    ensures { WithoutEdgeLaw }
{}

/// One more edge keeps a system flat exactly where its ends lie in one face or in two pieces.
pub fn one_more_edge()
    ensures { OneMoreEdgeLaw }
{}

/// A vertex that is cut in two keeps a system flat.
pub fn cut_vertex()
    ensures { CutVertexLaw }
{}

/// A graph has as many parts where joined names become one.
pub fn retract()
    ensures { RetractLaw }
{}

/// Two graphs between which walks go to and fro have as many parts.
pub fn matched_graphs()
    ensures { MatchedGraphsLaw }
{}

/// A curl has one face more, and as many pieces.
pub fn curl_counts()
    ensures { CurlCountsLaw }
{}

/// A vertex of two names in an edge changes neither the number of faces nor that of pieces.
pub fn subdivision_counts()
    ensures { SubdivisionCountsLaw }
{}

/// An edge pushed over another from places of one face makes two faces more, and keeps the pieces.
pub fn push_counts()
    ensures { PushCountsLaw }
{}

/// A system whose edges are given by a pairing of n names is flat exactly where 2 (V + F) = n + 4k.
pub fn pair_form()
    ensures { PairFormLaw }
{}

/// A vertex of two names that is taken away, also one that is a circle, keeps F - 2k.
pub fn passed_vertex()
    ensures { PassedVertexLaw }
{}

/// A triangle's side that is slid over a vertex changes neither the number of faces nor that of pieces.
pub fn slide_counts()
    ensures { SlideCountsLaw }
{}

/// A system under other names has as many faces and pieces.
pub fn renamed_counts()
    ensures { RenamedCountsLaw }
{}

/// A curl that is a piece of its own has three faces.
pub fn lone_curl()
    ensures { LoneCurlLaw }
{}
