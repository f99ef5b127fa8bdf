//! One step of the sweep where one of two terms leaves each pairing as it is: the table is made in place.

ghost use Rattle.std.specs.Prelude.{◌≡◌, ◌≢◌, ◌<◌, ◌≤◌, ◌+◌, ◌*◌, ◌^◌, ℕ, [], ◌∷◌, length, slice_index, get_or, OnOk, IfSome};
ghost use Rattle.std.specs.List.{All, zip};
ghost use Rattle.std.specs.Map.{keys_of, values_of};
ghost use Rattle.arc_pairing.specs.Gluing.{ChangesNothing};
ghost use Rattle.frontier_laws.specs.Tables.{add_all, contributions};
ghost use Rattle.kept_tables.specs.KeptTables.{AreTwo, scaled};
ghost use Rattle.frontier_sweep.specs.Steps.{FitsSeam, Spells};

use crate::fault::NotGlued;
use crate::step::Step;
use crate::table::Table;
use arc_pairing::{Term, Turns};
use frontier_laws::MOST_PAIRINGS;
use std::alloc::AllocError;

/// Where one of the two terms of a node is seen to change nothing at the seam: that one, and the other.
pub(crate) fn kept_and_other<'a>(step: Step<'a>) -> Option<(&'a Term, &'a Term)>
    requires { All (FitsSeam step.powers.now.modulus step.seam.now) step.terms.now }
    ensures two { IfSome result (λ terms. AreTwo step.entry.terms.now terms.0.now terms.1.now) }
    ensures kept { IfSome result (λ terms. ChangesNothing step.entry.seam.now terms.0.now.partner) }
{
    if step.terms.len() != 2 {
        return None;
    }
    let (first, second) = (&step.terms[0], &step.terms[1]);
    if step.seam.keeps(&first.pairing) {
        Some((first, second))
    } else if step.seam.keeps(&second.pairing) {
        Some((second, first))
    } else {
        None
    }
}

/// Glues the term that changes nothing to each pairing: each coefficient is saved, and what the term makes of it takes
/// its place.
fn scale(
    step: Step,
    kept: &Term,
    table: &mut Table,
    saved: &mut Vec<u64>,
    turns: &mut Turns,
) -> Result<(), AllocError>
    requires codes { (i : ℕ) → i < length table.old → Spells (length step.seam.now.inner) (get_or table.old i (0, 0)).0 }
    requires coefficients { (i : ℕ) → i < length table.old → (get_or table.old i (0, 0)).1 < step.powers.now.modulus }
    requires fits { FitsSeam step.powers.now.modulus step.seam.now kept.now }
    requires keeps { ChangesNothing step.seam.now kept.now.partner }
    requires empty { saved.old.items ≡ [] }
    requires room { turns.old + length table.old < 2 ^ 125 }
    ensures scaled { OnOk result (table.new ≡ scaled step.entry.powers.now.modulus kept.now.weight table.old) }
    ensures saved { OnOk result (saved.new.items ≡ values_of table.old) }
    ensures turns { OnOk result (turns.new ≡ turns.old + length table.old) }
{
    for at in 0..table.len() {
        let coefficient = table.coefficient_at(at);
        let (_same, more) = step.glue(kept, table.pairing(at), coefficient, turns);
        saved.push(coefficient)?;
        table.set_coefficient(at, more);
    }
    Ok(())
}

/// Glues the other term to each pairing that was there, with its saved coefficient, and adds what it gives.
///
/// `Full` comes where there would be a 262,145th pairing.
fn add_other(
    step: Step,
    other: &Term,
    saved: &[u64],
    table: &mut Table,
    turns: &mut Turns,
) -> Result<(), NotGlued>
    requires whole { length saved.now ≡ length table.old }
    requires codes { (i : ℕ) → i < length table.old → Spells (length step.seam.now.inner) (get_or table.old i (0, 0)).0 }
    requires coefficients { (i : ℕ) → i < length saved.now → slice_index saved.now i < step.powers.now.modulus }
    requires below { All (λ entry. entry.1 < step.powers.now.modulus) table.old }
    requires few { length table.old ≤ MOST_PAIRINGS }
    requires fits { FitsSeam step.powers.now.modulus step.seam.now other.now }
    requires room { turns.old + length table.old < 2 ^ 125 }
    ensures added { OnOk result (table.new ≡ add_all step.entry.powers.now.modulus table.old (contributions step.entry.powers.now.delta step.entry.seam.now (other.now ∷ []) (zip (keys_of table.old) saved.now))) }
    ensures few { OnOk result (length table.new ≤ MOST_PAIRINGS) }
    ensures turns { OnOk result (turns.new ≡ turns.old + length table.old) }
    ensures narrow { (ends : ℕ) → result ≢ Err (NotGlued.Wide ends) }
    ensures full { result ≡ Err NotGlued.Full →
        MOST_PAIRINGS < length (add_all step.entry.powers.now.modulus table.old (contributions step.entry.powers.now.delta step.entry.seam.now (other.now ∷ []) (zip (keys_of table.old) saved.now))) }
{
    for at in 0..saved.len() {
        let (glued, more) = step.glue(other, table.pairing(at), saved[at], turns);
        table.add(step.powers.ring(), glued, more)?;
    }
    Ok(())
}

/// Glues both terms to each pairing of the table, of which one changes nothing: its coefficients are scaled by that
/// term's weight, and what the other term gives is added. What was saved before is lost.
///
/// `Full` comes where there would be a 262,145th pairing.
pub(crate) fn glue_in_place(
    step: Step,
    kept: &Term,
    other: &Term,
    table: &mut Table,
    saved: &mut Vec<u64>,
    turns: &mut Turns,
) -> Result<(), NotGlued>
    requires codes { (i : ℕ) → i < length table.old → Spells (length step.seam.now.inner) (get_or table.old i (0, 0)).0 }
    requires coefficients { (i : ℕ) → i < length table.old → (get_or table.old i (0, 0)).1 < step.powers.now.modulus }
    requires few { length table.old ≤ MOST_PAIRINGS }
    requires some { 0 < step.powers.now.modulus }
    requires kept { FitsSeam step.powers.now.modulus step.seam.now kept.now }
    requires other { FitsSeam step.powers.now.modulus step.seam.now other.now }
    requires keeps { ChangesNothing step.seam.now kept.now.partner }
    requires room { turns.old + length table.old * 2 < 2 ^ 125 }
    ensures added { OnOk result (table.new ≡ add_all step.entry.powers.now.modulus (scaled step.entry.powers.now.modulus kept.now.weight table.old) (contributions step.entry.powers.now.delta step.entry.seam.now (other.now ∷ []) table.old)) }
    ensures few { OnOk result (length table.new ≤ MOST_PAIRINGS) }
    ensures turns { OnOk result (turns.new ≡ turns.old + length table.old * 2) }
    ensures narrow { (ends : ℕ) → result ≢ Err (NotGlued.Wide ends) }
    ensures full { result ≡ Err NotGlued.Full →
        MOST_PAIRINGS < length (add_all step.entry.powers.now.modulus (scaled step.entry.powers.now.modulus kept.now.weight table.old) (contributions step.entry.powers.now.delta step.entry.seam.now (other.now ∷ []) table.old)) }
{
    let len = table.len();
    table.reserve(len.min(MOST_PAIRINGS - len))?;
    saved.clear();
    saved.reserve(len)?;
    scale(step, kept, table, saved, turns)?;
    add_other(step, other, saved.as_slice(), table, turns)
}
