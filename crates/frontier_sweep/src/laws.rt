//! Laws of choosers: functions with empty bodies, whose contracts are the theorems.

ghost use Rattle.frontier_laws.specs.Laws.{OneOrderEach, OneLimitEach};

use crate::chooser::{Choose, Chooser};

/// Where a chooser has one answer at the most on each view, each network has one order of its answers,
/// and a limit is met at one step of it at the most: so a contraction's order, turns, and refusal are functions of
/// the network.
pub fn one_order_each<C: Choose>(chooser: &Chooser<C>)
    ensures order { OneOrderEach (C.answers chooser.now) }
    ensures limit { OneLimitEach (C.answers chooser.now) }
{}
