//! Signs of crossings and curls, and their sums.

ghost use Rattle.std.specs.Prelude.{◌≡◌, ◌+◌, ◌*◌, ◌^◌, ◌<◌, ◌≤◌, ℕ, length, map, slice_index, vec_len, IfOk, IfSome};
ghost use Rattle.std.specs.BTreeMap.{get};
ghost use Rattle.std.specs.List.{All, range_with_len};
ghost use Rattle.std.specs.List.Sorted.{IsStrictlySortedBy};
ghost use Rattle.std.specs.Ordering.{nat_cmp};
ghost use Rattle.planar_check.specs.Components.{rank};
ghost use Rattle.planar_check.specs.Signs.{is_between, signs_between};
ghost use Rattle.planar_check.specs.Tables.{is_same_walk, sign_value, signed_from};

use crate::component::count_at_most;
use crate::distinct::rank;
use std::alloc::{AllocError, Global};
use std::collections::BTreeMap;

/// A sign: of a crossing, a curl or a blow-up.
///
/// A crossing is `Plus` where, with the under strand walked from its first slot to its third, the over
/// strand is walked from the fourth slot to the second, or where both are reversed; else it is `Minus`.
#[derive(Clone, Copy, Debug, PartialEq, Eq)]
pub enum Sign {
    /// +1.
    Plus,
    /// -1.
    Minus,
}

impl Sign {
    /// The sign as a number.
    pub(crate) fn value(self) -> i64
        ensures { result ≡ sign_value self }
    {
        match self {
            Sign::Plus => 1,
            Sign::Minus => -1,
        }
    }
}

/// A crossing: the components of its strands, and its sign.
#[derive(Clone, Copy, Debug)]
pub(crate) struct Signed {
    pub under: u32,
    pub over: u32,
    pub sign: Sign,
}

/// Whether the place lies on the walk that enters at the first place of the label.
fn is_entered(firsts: &BTreeMap<u32, usize>, walks: &[usize], least: u32, place: usize) -> bool
    requires walks { place < length walks.now }
    requires firsts { IfSome (get nat_cmp firsts.now least) (λ first. first < length walks.now) }
    ensures { result ≡ is_same_walk walks.now place (get nat_cmp firsts.now least) }
{
    match firsts.get(&least) {
        Some(first) => walks[place] == walks[*first],
        None => false,
    }
}

/// For each place whether it lies on the walk that enters at the first place of the label given for it.
pub(crate) fn entered(
    alloc: Global,
    firsts: &BTreeMap<u32, usize>,
    walks: &[usize],
    leasts: &[u32],
) -> Result<Vec<bool>, AllocError>
    requires firsts { (label : ℕ) → IfSome (get nat_cmp firsts.now label) (λ first. first < length walks.now) }
    requires leasts { length leasts.now ≡ length walks.now }
    ensures { IfOk result (λ entered. entered.items ≡
        map (λ place. is_same_walk walks.now place (get nat_cmp firsts.now (slice_index leasts.now place))) (range_with_len 0 (length leasts.now))) }
{
    let mut entered = Vec::new(alloc);
    for place in 0..leasts.len() {
        entered.push(is_entered(firsts, walks, leasts[place], place))?;
    }
    Ok(entered)
}

/// The crossing with this number, from 0: where its walks enter, and the least labels, are given for each place.
fn signed_at(entered: &[bool], leasts: &[u32], all: &[u32], crossing: usize) -> Signed
    requires in_range { 4 * crossing + 3 < length entered.now }
    requires small { crossing < 2 ^ 32 }
    requires leasts { length leasts.now ≡ length entered.now }
    requires few { length all.now < 2 ^ 32 }
    requires sorted { IsStrictlySortedBy nat_cmp all.now }
    ensures { result ≡ signed_from entered.now leasts.now all.now crossing }
{
    let start = 4 * crossing;
    Signed {
        under: count_at_most(all, leasts[start]),
        over: count_at_most(all, leasts[start + 1]),
        sign: if entered[start] == entered[start + 3] {
            Sign::Plus
        } else {
            Sign::Minus
        },
    }
}

/// Whether one strand is of component i and the other of j.
fn is_between(crossing: &Signed, i: u32, j: u32) -> bool
    ensures { result ≡ is_between i j crossing.now }
{
    (crossing.under == i && crossing.over == j) || (crossing.under == j && crossing.over == i)
}

/// The sum of the signs of the crossings between two components, or of one with itself.
pub(crate) fn sign_sum(crossings: &[Signed], i: u32, j: u32) -> i64
    requires { length crossings.now < 2 ^ 32 }
    ensures { result ≡ signs_between i j crossings.now }
{
    let mut plus: u32 = 0;
    let mut minus: u32 = 0;
    for crossing in crossings {
        if is_between(crossing, i, j) {
            match crossing.sign {
                Sign::Plus => plus += 1,
                Sign::Minus => minus += 1,
            }
        }
    }
    i64::from(plus) - i64::from(minus)
}

/// For each label of the list the least label of its component.
pub(crate) fn leasts_at(
    alloc: Global,
    labels: &[u32],
    names: &[u32],
    leasts: &[u32],
) -> Result<Vec<u32>, AllocError>
    requires sorted { IsStrictlySortedBy nat_cmp names.now }
    requires in_range { All (λ label. rank names.now label < length leasts.now) labels.now }
    ensures { IfOk result (λ found. found.items ≡ map (λ label. slice_index leasts.now (rank names.now label)) labels.now) }
{
    let mut found = Vec::new(alloc);
    for label in labels {
        found.push(leasts[rank(names, *label)])?;
    }
    Ok(found)
}

/// The crossings in their order: where the walks enter, and the least labels, are given for each place, and
/// `all` are the least labels of all components.
pub(crate) fn signed_crossings(
    alloc: Global,
    entered: &[bool],
    leasts: &[u32],
    all: &[u32],
    count: usize,
) -> Result<Vec<Signed>, AllocError>
    requires in_range { 4 * count ≤ length entered.now }
    requires small { count ≤ 256 }
    requires leasts { length leasts.now ≡ length entered.now }
    requires few { length all.now < 2 ^ 32 }
    requires sorted { IsStrictlySortedBy nat_cmp all.now }
    ensures crossings { IfOk result (λ crossings. crossings.items ≡ map (signed_from entered.now leasts.now all.now) (range_with_len 0 count)) }
    ensures few { IfOk result (λ crossings. vec_len crossings ≤ 256) }
{
    let mut crossings = Vec::new(alloc);
    for crossing in 0..count {
        crossings.push(signed_at(entered, leasts, all, crossing))?;
    }
    Ok(crossings)
}
