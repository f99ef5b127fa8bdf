//! What one colouring of a framed diagram gives to its Kirby sum (Lickorish, ch. 13).

ghost use Rattle.std.specs.Prelude.{◌≡◌, ◌⊎◌, ◌-◌, ◌+◌, ◌^◌, ◌<◌, ◌≤◌, ℕ, ℤ, pos, ◌*ℤ◌, ◌-ℤ◌, length, Ok, Err, IfOk, IfErr, OnOk, OnErr};
ghost use Rattle.std.specs.List.{All, Contains};
ghost use Rattle.std.specs.Int.RustNames.{unsigned_abs};
ghost use Rattle.ring_identities.specs.Residues.{residue};
ghost use Rattle.root_quantum.specs.Colours.{greatest_colour};
ghost use Rattle.root_quantum.specs.QuantumNumbers.{delta, twist};
ghost use Rattle.state_sums.specs.Networks.{WeightsBelow};
ghost use Rattle.arc_pairing.specs.Nodes.{IsShortNode};
ghost use Rattle.planar_check.specs.Components.{least_labels};
ghost use Rattle.planar_check.specs.Framings.{framing_of};
ghost use Rattle.planar_check.specs.Signs.{writhe};
ghost use Rattle.frontier_laws.specs.Orders.{View};
ghost use Rattle.frontier_laws.specs.Views.{IsNext};
ghost use Rattle.frontier_sweep.specs.SweepResults.{sweep};
ghost use Rattle.frontier_sweep.specs.Sweeps.{IsSwept, IsStopped};
ghost use Rattle.frontier_sweep.specs.declared.fault.SweepFault.TheVariants.{Memory};
ghost use Rattle.wenzl_table.specs.Tables.{IsOf, Keeps, Knows};
ghost use Rattle.coloured_values.specs.Coloured.{twists};
ghost use Rattle.coloured_values.specs.Surgery.{deltas, component_count};
ghost use Rattle.kirby_terms.specs.Terms.{network_of, chosen_colours, term_at, network_at, colouring_total, HasInverses};

use crate::colours::colours_in;
use arc_pairing::{Network, Node, Turns};
use frontier_sweep::{Choose, Chooser, SweepFault, contract};
use planar_check::{Framed, Planar};
use root_quantum::Params;
use skein_network::{CableFault, cable};
use std::alloc::{AllocError, Global};
use wenzl_table::{Notes, Table};

/// The writhe of a component, at most 256 in size.
fn writhe_of(planar: &Planar, component: u32) -> i64
    requires first { 1 ≤ component }
    requires last { component ≤ length (least_labels planar.now) }
    ensures writhe { result ≡ writhe planar.now component }
    ensures small { unsigned_abs result ≤ 256 }
{
    // What a diagram keeps is told by the contract of its items.
    let _items = planar.diagram().items();
    planar.writhe(component)
}

/// How often the curl of a component is to be added: its framing less its writhe.
fn curls(framed: &Framed, component: u32) -> i64
    requires first { 1 ≤ component }
    requires last { component ≤ length (least_labels framed.now.items) }
    ensures { result ≡ framing_of framed.now component -ℤ writhe framed.now.items component }
{
    let planar = framed.planar();
    framed.framing(component) - writhe_of(planar, component)
}

/// What a component of colour n multiplies the term by: `Delta_n` times `mu_n` to the power framing less writhe.
fn factor(params: &Params, framed: &Framed, component: u32, n: u32) -> u64
    requires first { 1 ≤ component }
    requires last { component ≤ length (least_labels framed.now.items) }
    requires few { n ≤ 8 }
    ensures value { result ≡ residue params.now.modulus (pos (delta params.now n) *ℤ pos (twist params.now n (framing_of framed.now component -ℤ writhe framed.now.items component))) }
    ensures below { result < params.now.modulus }
{
    params
        .ring()
        .mul(params.delta(n), params.twist(n, curls(framed, component)))
}

/// The product of these factors over all components.
fn weight(params: &Params, framed: &Framed, colours: &[u32]) -> u64
    requires count { length colours.now ≡ length (least_labels framed.now.items) }
    requires few { All (λ n. n ≤ 8) colours.now }
    ensures value { result ≡ residue params.now.modulus (deltas params.now colours.now *ℤ twists params.now framed.now.items 1 framed.now.framings colours.now) }
    ensures below { result < params.now.modulus }
{
    let ring = params.ring();
    let mut product = 1;
    for place in 0..framed.planar().components() {
        let colour = colours[place as usize];
        product = ring.mul(product, factor(params, framed, place + 1, colour));
    }
    product
}

/// The cable of a diagram whose colours are those of the form and have projectors. The only error is want of memory.
fn coloured_cable(
    alloc: Global,
    framed: &Framed,
    colours: &[u32],
    table: &Table,
    notes: &mut Notes,
) -> Result<Network, AllocError>
    requires of { IsOf notes.old table.now }
    requires count { length colours.now ≡ component_count framed.now }
    requires few { All (λ n. n ≤ greatest_colour table.now.params) colours.now }
    requires top { greatest_colour table.now.params ≤ table.now.top }
    requires inverses { HasInverses table.now.params framed.now }
    ensures network { IfOk result (λ network. network ≡ network_of table.now.params framed.now colours.now) }
    ensures weights { IfOk result (λ network. WeightsBelow table.now.params.modulus network.nodes) }
    ensures of { IsOf notes.new table.now }
    ensures kept { Keeps notes.old notes.new }
    ensures known { OnOk result ((n : ℕ) → 2 ≤ n → Contains colours.now n → Knows notes.new n) }
{
    let fault = match cable(alloc, framed.planar(), colours, table, notes) {
        Ok(network) => return Ok(network),
        Err(fault) => fault,
    };
    match fault {
        CableFault::Memory => Err(AllocError),
        _ => unreachable!(),
    }
}

/// What each of the nodes keeps, told by the contract of its ends.
fn short_nodes(nodes: &[Node])
    ensures { All IsShortNode nodes.now }
{
    for node in nodes {
        let _ends = node.ends();
    }
}

/// What the colouring with that number gives to the Kirby sum of a framed diagram, as a residue: the product of the `Delta` of its
/// colours times the framed value. The projectors come from the table, whose notes are given.
///
/// `Wide` and `Table` come where `contract` meets them on the network of this colouring, and `Memory` is want of memory; then the
/// count of turns stays.
pub fn term<C: Choose>(
    alloc: Global,
    framed: &Framed,
    table: &Table,
    chooser: &Chooser<C>,
    index: u64,
    notes: &mut Notes,
    turns: &mut Turns,
) -> Result<u64, SweepFault>
    requires of { IsOf notes.old table.now }
    requires top { greatest_colour table.now.params ≤ table.now.top }
    requires inverses { HasInverses table.now.params framed.now }
    requires lowest { 1 ≤ index }
    requires highest { index ≤ colouring_total table.now.params framed.now }
    requires few { colouring_total table.now.params framed.now ≤ 65536 }
    requires room { turns.old < 2 ^ 120 }
    ensures value { IfOk result (λ term. term ≡ residue table.now.params.modulus (term_at table.now.params framed.now index)) }
    ensures below { IfOk result (λ term. term < table.now.params.modulus) }

    // The turns and limits are those of the contraction of the colouring's network.
    ensures swept { OnOk result (IsSwept (C.answers chooser.now) (network_at table.now.params framed.now index) turns.old turns.new) }
    ensures stopped { IfErr result (IsStopped (C.answers chooser.now) (network_at table.now.params framed.now index)) }
    ensures stays { OnErr result (turns.new ≡ turns.old) }
    ensures few { OnOk result (turns.new ≤ turns.old + 2 ^ 54) }
    ensures turns { (next : View → ℕ) → IsNext next (C.answers chooser.now) → OnOk result ((count : ℕ)
        × (sweep next (network_at table.now.params framed.now index) ≡ Ok count)
        × (turns.new ≡ turns.old + count)) }
    ensures limit { (next : View → ℕ) → IsNext next (C.answers chooser.now) → IfErr result (λ fault. (fault ≡ Memory)
        ⊎ (sweep next (network_at table.now.params framed.now index) ≡ Err fault)) }

    // After every answer the notes are the table's, and know what they knew.
    ensures of { IsOf notes.new table.now }
    ensures kept { Keeps notes.old notes.new }
    ensures known { OnOk result ((n : ℕ) → 2 ≤ n → Contains (chosen_colours table.now.params framed.now index) n → Knows notes.new n) }
{
    let params = table.params();
    let colours = match colours_in(alloc, params, framed.planar().components(), index) {
        Ok(colours) => colours,
        Err(AllocError) => return Err(SweepFault::Memory),
    };
    let network = match coloured_cable(alloc, framed, &colours, table, notes) {
        Ok(network) => network,
        Err(AllocError) => return Err(SweepFault::Memory),
    };
    short_nodes(network.nodes());
    let value = match contract(alloc, params, &network, chooser, turns) {
        Ok(value) => value,
        Err(fault) => return Err(fault),
    };
    Ok(params.ring().mul(value, weight(params, framed, &colours)))
}
