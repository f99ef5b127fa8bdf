//! The laws of pieces: each function has an empty body, and its contract is the law. They are stated in `specs/Laws.antt`.

ghost use Rattle.piece_laws.specs.Laws.{ArcsCloseLaw, ArcJoinsLaw, WeightIsFactorLaw, NodeOfArcsLaw, GroupsLaw, OtherTermsLaw, TurnedNodeLaw, QuarterTurnLaw, AnyCornerLaw, PermutedPieceLaw, AddedAroundLaw, PieceAnywhereLaw, CurlCornerLaw, BigonCornersLaw, TriangleCornersLaw, FirstMoveLaw, SecondMoveLaw, ThirdMoveLaw, SkeinNumbersLaw};

/// Arcs close: each class of names that arcs join becomes one name, or a free loop where no other node has it.
pub fn arcs_close()
    ensures { ArcsCloseLaw }
{}

/// An arc between two names makes them one; read backwards, it cuts a name in two.
pub fn arc_joins()
    ensures { ArcJoinsLaw }
{}

/// The weight of an arc is a factor.
pub fn weight_is_factor()
    ensures { WeightIsFactorLaw }
{}

/// A node with one term of weight 1 is its arcs.
pub fn node_of_arcs()
    ensures { NodeOfArcsLaw }
{}

/// Groups change no value and no sum over patterns.
pub fn groups()
    ensures { GroupsLaw }
{}

/// Of a node's terms only the weight of each pairing counts, modulo m.
pub fn other_terms()
    ensures { OtherTermsLaw }
{}

/// The ends of a node may be put into any order, with the pairings of its terms.
pub fn turned_node()
    ensures { TurnedNodeLaw }
{}

/// A crossing turned by a quarter, with its weights exchanged, is the same crossing.
pub fn quarter_turn()
    ensures { QuarterTurnLaw }
{}

/// A crossing is the same told from each of its corners.
pub fn any_corner()
    ensures { AnyCornerLaw }
{}

/// The order of a piece's nodes does not matter.
pub fn permuted_piece()
    ensures { PermutedPieceLaw }
{}

/// To be the same everywhere is kept under adding nodes in front, behind and between.
pub fn added_around()
    ensures { AddedAroundLaw }
{}

/// A local equality holds wherever its piece stands, also where some of its open names become one.
pub fn piece_anywhere()
    ensures { PieceAnywhereLaw }
{}

/// The first Reidemeister move at a corner, at names that are written out (Lickorish, ch. 3).
pub fn curl_corner()
    ensures { CurlCornerLaw }
{}

/// The second Reidemeister move at the corners of a face of two places, at names that are written out (Lickorish, ch. 3).
pub fn bigon_corners()
    ensures { BigonCornersLaw }
{}

/// The third Reidemeister move at the corners of a face of three places, at names that are written out (Lickorish, ch. 3).
pub fn triangle_corners()
    ensures { TriangleCornersLaw }
{}

/// The first Reidemeister move in every network, at any names, for all slots: a curl counts as its strand times its factor.
pub fn first_move()
    ensures { FirstMoveLaw }
{}

/// The second Reidemeister move in every network, at any names, for all slots.
pub fn second_move()
    ensures { SecondMoveLaw }
{}

/// The third Reidemeister move in every network, at any names, for all slots.
pub fn third_move()
    ensures { ThirdMoveLaw }
{}

/// The numbers of any parameters are such as the moves ask for, and mu_1 is the factor of a curl.
pub fn skein_numbers()
    ensures { SkeinNumbersLaw }
{}
