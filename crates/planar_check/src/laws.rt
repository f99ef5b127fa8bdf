//! The laws of directions and of faces: each function has an empty body, and its contract is the law. They are stated in `specs/Laws.antt`.

ghost use Rattle.planar_check.specs.Laws.{WalkDirections, OneDirection, ReversedDirection, SignsByDirection, FacesTold};

/// The walks by which signs are told are a direction: one that enters a crossing leaves it at the opposite slot, and
/// enters again at the other end of the edge.
pub fn walk_directions()
    ensures { WalkDirections }
{}

/// A direction that comes in where the walk of each component does, at the first place of its least label, is that of the
/// walks everywhere.
pub fn one_direction()
    ensures { OneDirection }
{}

/// A direction with one component reversed is a direction.
pub fn reversed_direction()
    ensures { ReversedDirection }
{}

/// Under any direction each component has its writhe, and the sum of the signs between two components is theirs times 1 or -1
/// for each of them: so a component that is reversed keeps its writhe, and its sums with others change their sign.
pub fn signs_by_direction()
    ensures { SignsByDirection }
{}

/// Faces are told by their least places: two places have the same where the rule of faces leads from one to the other; and a
/// face has a place of a label exactly where one of the label's two places lies in it.
pub fn faces_told()
    ensures { FacesTold }
{}
