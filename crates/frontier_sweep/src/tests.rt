//! Worked rows, the limits, and random networks against the sum over all states.

ghost use Rattle.frontier_laws.specs.Orders.{View, listed_of, greedy_of, given_of};
ghost use Rattle.frontier_laws.specs.Views.{IsNext};
ghost use Rattle.frontier_sweep.specs.SweepResults.{sweep};
ghost use Rattle.std.specs.Prelude.{Ok, Some, ◌≡◌, ◌≢◌, ◌<◌, ◌==◌, ℕ, [], true, IsTrue, length};
ghost use Rattle.std.specs.List.{All};
ghost use Rattle.std.specs.Set.{is_member};
ghost use Rattle.state_sums.specs.Networks.{WeightsBelow};

use super::*;
use arc_pairing::{Network, Node, Pairing, Term, Turns};
use plain_sum::plain_sum;
use root_quantum::Params;
use std::alloc::Global;
use std::test::Fail;
use std::thread::{Threads, join};

/// A node: its group, the names of its ends, and its terms, each a weight and the partners of the places.
type NodeRow = (u32, &'static [u32], &'static [(u64, &'static [u8])]);

/// A crossing at modulus 41 and A = 2, so that A^-1 = 21: A joins the ends in the order in which they
/// stand, and A^-1 the first with the last.
const CROSSING: &[(u64, &[u8])] = &[(2, &[1, 0, 3, 2]), (21, &[3, 2, 1, 0])];

/// The left-handed trefoil.
const TREFOIL: &[NodeRow] = &[
    (1, &[1, 4, 2, 5], CROSSING),
    (2, &[3, 6, 4, 1], CROSSING),
    (3, &[5, 2, 6, 3], CROSSING),
];

/// The figure eight knot.
const FIGURE_EIGHT: &[NodeRow] = &[
    (1, &[4, 2, 5, 1], CROSSING),
    (2, &[8, 6, 1, 5], CROSSING),
    (3, &[6, 3, 7, 4], CROSSING),
    (4, &[2, 7, 3, 8], CROSSING),
];

/// The closed two-strand braid with two crossings.
const HOPF: &[NodeRow] = &[(1, &[2, 4, 3, 1], CROSSING), (2, &[4, 2, 1, 3], CROSSING)];

/// Two nodes whose weights are all 0.
const WEIGHTLESS: &[NodeRow] = &[
    (1, &[1, 2, 3, 4], &[(0, &[1, 0, 3, 2]), (0, &[2, 3, 0, 1])]),
    (1, &[4, 3, 2, 1], CROSSING),
];

/// Two nodes without a term.
const TERMLESS: &[NodeRow] = &[(1, &[1, 2, 3], &[]), (2, &[3, 2, 1], &[])];

/// Point i is joined to point 19 - i.
const NESTED: &[(u64, &[u8])] = &[(
    1,
    &[
        19, 18, 17, 16, 15, 14, 13, 12, 11, 10, 9, 8, 7, 6, 5, 4, 3, 2, 1, 0,
    ],
)];

/// Five nodes of 20 ends: where the first three are taken first, their 40 names that stand once are open.
const BROAD: &[NodeRow] = &[
    (
        1,
        &[
            1, 2, 3, 4, 5, 6, 7, 8, 9, 10, 11, 12, 13, 14, 15, 16, 17, 18, 19, 20,
        ],
        NESTED,
    ),
    (
        2,
        &[
            11, 12, 13, 14, 15, 16, 17, 18, 19, 20, 21, 22, 23, 24, 25, 26, 27, 28, 29, 30,
        ],
        NESTED,
    ),
    (
        3,
        &[
            31, 32, 33, 34, 35, 36, 37, 38, 39, 40, 41, 42, 43, 44, 45, 46, 47, 48, 49, 50,
        ],
        NESTED,
    ),
    (
        4,
        &[
            1, 2, 3, 4, 5, 6, 7, 8, 9, 10, 31, 32, 33, 34, 35, 36, 37, 38, 39, 40,
        ],
        NESTED,
    ),
    (
        5,
        &[
            21, 22, 23, 24, 25, 26, 27, 28, 29, 30, 41, 42, 43, 44, 45, 46, 47, 48, 49, 50,
        ],
        NESTED,
    ),
];

/// The node of this group with these ends and terms, each a weight and partners.
fn node(alloc: Global, group: u32, ends: &[u32], rows: &[(u64, &[u8])]) -> Option<Node> {
    let mut terms = Vec::new(alloc);
    for (weight, partners) in rows {
        let pairing = Pairing::new(partners).ok()?;
        let weight = *weight;
        terms.push(Term { weight, pairing }).ok()?;
    }
    Node::new(alloc, group, ends, &terms).ok()
}

/// The network of these nodes.
fn network(alloc: Global, rows: &[NodeRow]) -> Option<Network> {
    let mut nodes = Vec::new(alloc);
    for row in rows {
        nodes.push(node(alloc, row.0, row.1, row.2)?).ok()?;
    }
    Network::new(alloc, nodes, 0).ok()
}

/// The closed two-strand braid with so many crossings.
fn braid(alloc: Global, crossings: u32) -> Option<Network> {
    if crossings < 1 || crossings > 256 {
        return None;
    }
    let mut nodes = Vec::new(alloc);
    for i in 1..crossings {
        let ends = [2 * i, 2 * i + 2, 2 * i + 1, 2 * i - 1];
        nodes.push(node(alloc, i, &ends, CROSSING)?).ok()?;
    }
    let ends = [2 * crossings, 2, 1, 2 * crossings - 1];
    nodes.push(node(alloc, crossings, &ends, CROSSING)?).ok()?;
    Network::new(alloc, nodes, 0).ok()
}

/// Whether all weights are below m.
fn weights_below(network: &Network, m: u64) -> bool
    ensures { IsTrue result → WeightsBelow m network.now.nodes }
{
    network
        .nodes()
        .iter()
        .all(|node| node.terms().iter().all(|term| term.weight < m))
}

/// What `contract` answers at 41, 2, 5, where a loop is worth 6, and the turns that it counts.
type Answer = (Result<u64, SweepFault>, u128);

fn answer_of<C: Choose>(alloc: Global, network: &Network, chooser: &Chooser<C>) -> Option<Answer>
    ensures { (next : View → ℕ) → IsNext next (C.answers chooser.now) → (value count : ℕ) → result ≡ Some (Ok value, count) → sweep next network.now ≡ Ok count }
{
    let params = Params::new(41, 2, 5).ok()?;
    if !weights_below(network, params.ring().modulus()) {
        return None;
    }
    let mut turns = Turns::new();
    let answer = contract(alloc, &params, network, chooser, &mut turns);
    Some((answer, turns.count()))
}

fn swept<C: Choose + Drop>(alloc: Global, network: &Network, choose: C) -> Option<Answer>
    requires { C.chooses choose }
    ensures { (next : View → ℕ) → IsNext next (C.answers choose) → (value count : ℕ) → result ≡ Some (Ok value, count) → sweep next network.now ≡ Ok count }
{
    answer_of(alloc, network, &Chooser::keep(choose))
}

/// The same in the listed order, by a closure.
fn listed_by_closure(alloc: Global, network: &Network) -> Option<Answer>
    ensures { (value count : ℕ) → result ≡ Some (Ok value, count) → sweep listed_of network.now ≡ Ok count }
{
    swept(alloc, network, Kept(|view: &View| listed_next(view)))
}

/// In the greedy order.
fn greedy_by_closure(alloc: Global, network: &Network) -> Option<Answer>
    ensures { (value count : ℕ) → result ≡ Some (Ok value, count) → sweep greedy_of network.now ≡ Ok count }
{
    swept(alloc, network, Kept(|view: &View| greedy_next(view)))
}

/// In the order that a list gives, which the closure keeps.
fn given_by_closure(alloc: Global, network: &Network, groups: &[u32]) -> Option<Answer>
    ensures { (value count : ℕ) → result ≡ Some (Ok value, count) → sweep (given_of groups.now) network.now ≡ Ok count }
{
    swept(alloc, network, Kept(|view: &View| given_next(view, groups)))
}

/// The same by each of two threads, which share the chooser.
fn swept_in_threads<R: Threads + Sync, C: Choose + Sync + Drop>(
    rt: &R,
    alloc: Global,
    network: &Network,
    choose: C,
) -> (Option<Answer>, Option<Answer>)
    requires { C.chooses choose }
{
    let chooser = Chooser::keep(choose);
    join(
        rt,
        || answer_of(alloc, network, &chooser),
        || answer_of(alloc, network, &chooser),
    )
}

/// The order that this list of groups gives.
fn given(alloc: Global, groups: &[u32]) -> Option<Order> {
    Some(Order::Given(Vec::from_slice(alloc, groups).ok()?))
}

/// What the three orders answer, with the turns that they count.
fn swept_thrice(
    alloc: Global,
    network: &Network,
    groups: &[u32],
) -> Option<[(Result<u64, SweepFault>, u128); 3]> {
    Some([
        swept(alloc, network, Order::Listed)?,
        swept(alloc, network, Order::Greedy)?,
        swept(alloc, network, given(alloc, groups)?)?,
    ])
}

/// Nodes, a list of groups, the value that is wanted, and the turns in the listed, the greedy and the given order.
type ValueRow = (&'static [NodeRow], &'static [u32], u64, [u128; 3]);

/// The values and turns are worked by hand and by an independent program.
const VALUES: [ValueRow; 7] = [
    (&[], &[], 1, [0, 0, 0]),
    (TREFOIL, &[3, 1, 2], 10, [10, 10, 10]),
    (FIGURE_EIGHT, &[1, 3], 2, [14, 14, 18]),
    (FIGURE_EIGHT, &[4, 3, 2, 1], 2, [14, 14, 14]),
    (HOPF, &[2], 1, [6, 6, 6]),
    (WEIGHTLESS, &[], 0, [6, 6, 6]),
    (TERMLESS, &[], 0, [0, 0, 0]),
];

/// The same where a limit is met.
const LIMITS: [(&[NodeRow], &[u32], [Answer; 3]); 1] = [(
    BROAD,
    &[3, 1, 4],
    [
        (Err(SweepFault::Wide { step: 3, ends: 40 }), 0),
        (Ok(27), 5),
        (Err(SweepFault::Wide { step: 2, ends: 40 }), 0),
    ],
)];

#[test]
fn worked_rows(rt: HostRuntime) -> Result<(), Fail> {
    for (number, (rows, groups, value, turns)) in VALUES.iter().enumerate() {
        let network = network(rt.alloc(), rows).ok_or("no network")?;
        let answers = swept_thrice(rt.alloc(), &network, groups).ok_or("no answers")?;
        for (answer, turns) in answers.iter().zip(turns.iter()) {
            assert_eq!(rt; *answer, (Ok(*value), *turns), "row {number}");
        }
    }
    for (rows, groups, wanted) in LIMITS {
        let network = network(rt.alloc(), rows).ok_or("no network")?;
        assert_eq!(rt; swept_thrice(rt.alloc(), &network, groups), Some(wanted));
    }
    Ok(())
}

/// One point more, before the point `at`, and one behind all, which are each other's partners.
fn with_pair(alloc: Global, partners: &[u8], at: u8) -> Option<Vec<u8>> {
    let last = u8::try_from(partners.len()).ok()?.checked_add(1)?;
    let mut more = Vec::from_slice(alloc, partners).ok()?;
    for partner in more.iter_mut() {
        if *partner >= at {
            *partner = partner.saturating_add(1);
        }
    }
    if usize::from(at) > more.len() {
        return None;
    }
    more.insert(usize::from(at), last).ok()?;
    more.push(at).ok()?;
    Some(more)
}

/// The pairing of so many pairs with this number: each pair more is put in at the place that the number
/// names. The numbers below 105 name the pairings of 8 points, each once.
fn numbered(alloc: Global, pairs: u8, number: u32) -> Option<Pairing> {
    let mut partners = Vec::new(alloc);
    let mut rest = number;
    for pair in 0..u32::from(pairs) {
        let at = u8::try_from(rest % (2 * pair + 1)).ok()?;
        rest /= 2 * pair + 1;
        partners = with_pair(alloc, &partners, at)?;
    }
    Pairing::new(&partners).ok()
}

/// A node with the 8 names from this one on, and all 105 pairings of its ends.
fn full_node(alloc: Global, first: u32) -> Option<Node> {
    let mut ends = Vec::new(alloc);
    for place in 0..8u32 {
        ends.push(first.checked_add(place)?).ok()?;
    }
    let mut terms = Vec::new(alloc);
    for number in 0..105 {
        let pairing = numbered(alloc, 4, number)?;
        terms.push(Term { weight: 1, pairing }).ok()?;
    }
    Node::new(alloc, 0, &ends, &terms).ok()
}

/// Three such nodes with the names 1 to 24, and three with the same.
fn full_network(alloc: Global) -> Option<Network> {
    let mut nodes = Vec::new(alloc);
    for first in [1, 9, 17, 1, 9, 17] {
        nodes.push(full_node(alloc, first)?).ok()?;
    }
    Network::new(alloc, nodes, 0).ok()
}

// 105 to the third is 1,157,625.
#[test]
fn large_networks(rt: HostRuntime) -> Result<(), Fail> {
    let long = braid(rt.alloc(), 256).ok_or("no network")?;
    let answer = (Ok(11), 1022);
    assert_eq!(rt; swept_thrice(rt.alloc(), &long, &[]), Some([answer; 3]));
    let full = full_network(rt.alloc()).ok_or("no network")?;
    let answer = swept(rt.alloc(), &full, Order::Listed);
    assert_eq!(rt; answer, Some((Err(SweepFault::Table { step: 3 }), 0)));
    Ok(())
}

/// The last node that is left.
fn last_left(view: &View) -> u32
    requires { view.now.left ≢ [] }
    ensures { is_member ◌==◌ view.now.left result ≡ true }
{
    let left = view.left();
    left[left.len() - 1]
}

/// What the last node left each time gives, and the three orders by closures.
fn swept_by_closures(alloc: Global, network: &Network) -> Option<[Answer; 4]> {
    Some([
        swept(alloc, network, Kept(|view: &View| last_left(view)))?,
        listed_by_closure(alloc, network)?,
        greedy_by_closure(alloc, network)?,
        given_by_closure(alloc, network, &[1, 3])?,
    ])
}

#[test]
fn closures(rt: HostRuntime) -> Result<(), Fail> {
    let network = network(rt.alloc(), FIGURE_EIGHT).ok_or("no network")?;
    let inner = (Ok(2), 14);
    let answers = swept_by_closures(rt.alloc(), &network);
    assert_eq!(rt; answers, Some([inner, inner, inner, (Ok(2), 18)]));
    let both = swept_in_threads(
        &rt,
        rt.alloc(),
        &network,
        Kept(|view: &View| greedy_next(view)),
    );
    assert_eq!(rt; both, (Some(inner), Some(inner)));
    Ok(())
}

/// Numbers that look drawn at random (Knuth's generator MMIX).
#[derive(Drop)]
struct Draws {
    state: u64,
}

impl Draws {
    /// A number below n.
    fn below(&mut self, n: u64) -> u64
        requires { 0 < n }
        ensures { result < n }
    {
        self.state = self
            .state
            .wrapping_mul(6_364_136_223_846_793_005)
            .wrapping_add(1_442_695_040_888_963_407);
        (self.state >> 33) % n
    }
}

/// So many pairs of names, mixed.
fn drawn_names(alloc: Global, draws: &mut Draws, pairs: u32) -> Option<Vec<u32>> {
    let mut names = Vec::new(alloc);
    for name in 0..pairs {
        names.push(name).ok()?;
        names.push(name).ok()?;
    }
    for place in 0..names.len() {
        let other = draws.below(1 + 2 * u64::from(pairs)) as usize;
        if place < names.len() && other < names.len() {
            names.as_mut_slice().swap(place, other);
        }
    }
    Some(names)
}

/// One to three terms; about one weight of four is 0.
fn drawn_terms(alloc: Global, draws: &mut Draws, pairs: u8) -> Option<Vec<Term>> {
    let mut terms = Vec::new(alloc);
    for _ in 0..1 + draws.below(3) {
        let weight = draws.below(4).min(1) * draws.below(41);
        let pairing = numbered(alloc, pairs, draws.below(1 << 31) as u32)?;
        terms.push(Term { weight, pairing }).ok()?;
    }
    Some(terms)
}

/// A network of six nodes with 16 ends and up to two free loops; its nodes have up to four ends, but for
/// the last one, which has those that are left.
fn drawn_network(alloc: Global, draws: &mut Draws) -> Option<Network> {
    let names = drawn_names(alloc, draws, 8)?;
    let mut rest = names.as_slice();
    let mut nodes = Vec::new(alloc);
    for number in 0..6 {
        let pairs = if number < 5 {
            (draws.below(3) as usize).min(rest.len() / 2)
        } else {
            rest.len() / 2
        };
        let terms = drawn_terms(alloc, draws, u8::try_from(pairs).ok()?)?;
        let (ends, behind) = rest.split_at(2 * pairs);
        nodes
            .push(Node::new(alloc, draws.below(4) as u32, ends, &terms).ok()?)
            .ok()?;
        rest = behind;
    }
    Network::new(alloc, nodes, draws.below(3) as u32).ok()
}

/// A closed braid of three strands with eight crossings; its last node joins the tops to the bottoms.
fn drawn_braid(alloc: Global, draws: &mut Draws) -> Option<Network> {
    let mut open = [0u32, 1, 2];
    let mut nodes = Vec::new(alloc);
    for number in 0..8u32 {
        let left = draws.below(2) as usize;
        let (below_left, below_right) = (open[left], open[left + 1]);
        let (above_left, above_right) = (3 + 2 * number, 4 + 2 * number);
        let ends = if draws.below(2) == 0 {
            [below_right, above_right, above_left, below_left]
        } else {
            [below_left, below_right, above_right, above_left]
        };
        nodes.push(node(alloc, number, &ends, CROSSING)?).ok()?;
        open[left] = above_left;
        open[left + 1] = above_right;
    }
    let ends = [0, 1, 2, open[0], open[1], open[2]];
    nodes
        .push(node(alloc, 8, &ends, &[(1, &[3, 4, 5, 0, 1, 2])])?)
        .ok()?;
    Network::new(alloc, nodes, 0).ok()
}

/// Whether the three orders, and the last node left each time, give the sum over all states.
fn agrees_with_states(alloc: Global, network: &Network) -> Option<bool> {
    let params = Params::new(41, 2, 5).ok()?;
    if !weights_below(network, params.ring().modulus()) {
        return None;
    }
    let sum = plain_sum(alloc, params.ring(), params.loop_value(), network).ok()?;
    let answers = swept_thrice(alloc, network, &[3, 1])?;
    let last = swept(alloc, network, Kept(|view: &View| last_left(view)))?;
    Some(last.0 == Ok(sum) && answers.iter().all(|answer| answer.0 == Ok(sum)))
}

// At most crossings of a braid two ends are glued and the names keep their places; elsewhere the table is made anew.
#[test]
fn drawn_networks(rt: HostRuntime) -> Result<(), Fail> {
    let mut draws = Draws { state: 1 };
    for number in 0..100 {
        let network = drawn_network(rt.alloc(), &mut draws).ok_or("no network")?;
        let agrees = agrees_with_states(rt.alloc(), &network);
        assert_eq!(rt; agrees, Some(true), "network {number}");
        let braid = drawn_braid(rt.alloc(), &mut draws).ok_or("no braid")?;
        let agrees = agrees_with_states(rt.alloc(), &braid);
        assert_eq!(rt; agrees, Some(true), "braid {number}");
    }
    Ok(())
}
