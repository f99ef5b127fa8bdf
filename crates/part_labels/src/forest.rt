//! A forest over the names from 0 on, by which joined names find one root: union-find, with the least name as the root.

ghost use Rattle.part_labels.specs.Forests.{IsDescending, StandsFor};
ghost use Rattle.graph_parts.specs.LeastNames.{join_least, least_label};
ghost use Rattle.std.specs.List.{All};
ghost use Rattle.std.specs.Prelude.{ℕ, ◌≡◌, ◌<◌, length, slice_index, EachIndex};

/// The root of the name's tree. On the way each second name is hung two steps higher, so that later ways are short.
fn root(parents: &mut [usize], name: usize) -> usize
    requires in_range { name < length parents.old }
    requires descending { IsDescending parents.old }
    ensures label { (label : ℕ → ℕ) → StandsFor label parents.old → result ≡ label name }
    ensures in_range { result < length parents.new }
    ensures root { slice_index parents.new result ≡ result }
    ensures descending { IsDescending parents.new }
    ensures kept { (label : ℕ → ℕ) → StandsFor label parents.old → StandsFor label parents.new }
{
    let mut at = name;
    while parents[at] != at {
        let parent = parents[at];
        let above = parents[parent];
        parents[at] = above;
        at = above;
    }
    at
}

/// Joins the trees of two names: the smaller root becomes the parent of the other.
fn join(parents: &mut [usize], left: usize, right: usize)
    requires left_in_range { left < length parents.old }
    requires right_in_range { right < length parents.old }
    requires descending { IsDescending parents.old }
    ensures descending { IsDescending parents.new }
    ensures joined { (label : ℕ → ℕ) → StandsFor label parents.old
        → StandsFor (join_least label (left, right)) parents.new }
{
    let left = root(parents, left);
    let right = root(parents, right);
    parents[left.max(right)] = left.min(right);
}

/// Hangs each name on its root at once, in the order of the names: its parent hangs there already.
fn flatten(parents: &mut [usize])
    requires descending { IsDescending parents.old }
    ensures labels { (label : ℕ → ℕ) → StandsFor label parents.old
        → EachIndex parents.new (λ x. slice_index parents.new x ≡ label x) }
{
    for name in 0..parents.len() {
        let parent = parents[name];
        parents[name] = parents[parent];
    }
}

/// From names that are their own parents to the least name of each part.
pub fn label_parts(parents: &mut [usize], edges: &[(usize, usize)])
    requires apart { EachIndex parents.old (λ x. slice_index parents.old x ≡ x) }
    requires among { All (λ edge. (edge.0 < length parents.old) × (edge.1 < length parents.old)) edges.now }
    ensures labels { EachIndex parents.new (λ x. slice_index parents.new x ≡ least_label edges.now x) }
{
    for edge in edges {
        join(parents, edge.0, edge.1);
    }
    flatten(parents);
}
