//! One step of the sweep: a node is glued to each pairing of a table.

ghost use Rattle.std.specs.Prelude.{◌≡◌, ◌≢◌, ◌<◌, ◌≤◌, ◌+◌, ◌*◌, ◌^◌, ◌%◌, ◌==◌, ℕ, [], length, map, get_or, ◌++◌, OnOk, IfOk, IfErr};
ghost use Rattle.list_lemmas.specs.Times.{times_in};
ghost use Rattle.arc_pairing.specs.Codes.{code_of};
ghost use Rattle.arc_pairing.specs.Nodes.{IsShortNode};
ghost use Rattle.frontier_sweep.specs.NotGluedNodes.{Explains};
ghost use Rattle.std.specs.List.{All};
ghost use Rattle.kept_tables.specs.KeptTables.{IsGathered};
ghost use Rattle.frontier_laws.specs.Tables.{add_all, glued_item, contributions};
ghost use Rattle.frontier_sweep.specs.Steps.{FitsSeam, IsSeamOf, IsReady, Spells};

use crate::fault::NotGlued;
use crate::places::kept_seam;
use crate::powers::LoopPowers;
use crate::table::Table;
use crate::tables::Tables;
use arc_pairing::{Node, Pairing, Seam, Term, Turns, glue};
use frontier_laws::MOST_PAIRINGS;

/// What a node is glued with: the powers of delta, the seam, and the node's terms.
#[derive(Clone, Copy)]
pub(crate) struct Step<'a> {
    pub(crate) powers: &'a LoopPowers,
    pub(crate) seam: &'a Seam,
    pub(crate) terms: &'a [Term],
}

impl<'a> Step<'a> {
    /// Glues a term to the pairing, which has this coefficient. Answers the pairing that it gives, and what is to be
    /// added there.
    #[inline]
    pub(crate) fn glue(
        self,
        term: &Term,
        pairing: &Pairing,
        coefficient: u64,
        turns: &mut Turns,
    ) -> (Pairing, u64)
        requires fits { length pairing.now ≡ length self.seam.now.inner }
        requires term { FitsSeam self.powers.now.modulus self.seam.now term.now }
        requires coefficient { coefficient < self.powers.now.modulus }
        requires room { turns.old < 2 ^ 125 }
        ensures code { code_of result.0 ≡ (glued_item self.entry.powers.now.delta self.entry.seam.now pairing.now coefficient term.now).0 }
        ensures more { result.1 ≡ (glued_item self.entry.powers.now.delta self.entry.seam.now pairing.now coefficient term.now).1 % self.entry.powers.now.modulus }
        ensures below { result.1 < self.entry.powers.now.modulus }
        ensures turns { turns.new ≡ turns.old + 1 }
    {
        let glued = glue(pairing, &term.pairing, self.seam, turns);
        let more = self.powers.scaled(coefficient, term.weight, glued.loops);
        (glued.pairing, more)
    }
}

/// Glues each term to the pairing, which has this coefficient, and adds what they give to the next table.
///
/// `Full` comes where a term gives a pairing that would be the 262,145th.
fn glue_terms(
    step: Step,
    pairing: &Pairing,
    coefficient: u64,
    next: &mut Table,
    turns: &mut Turns,
) -> Result<(), NotGlued>
    requires fits { length pairing.now ≡ length step.seam.now.inner }
    requires terms { All (FitsSeam step.powers.now.modulus step.seam.now) step.terms.now }
    requires coefficient { coefficient < step.powers.now.modulus }
    requires below { All (λ entry. entry.1 < step.powers.now.modulus) next.old }
    requires few { length next.old ≤ MOST_PAIRINGS }
    requires room { turns.old + length step.terms.now < 2 ^ 125 }
    ensures added { OnOk result (next.new ≡ add_all step.entry.powers.now.modulus next.old (map (glued_item step.entry.powers.now.delta step.entry.seam.now pairing.now coefficient) step.entry.terms.now)) }
    ensures few { OnOk result (length next.new ≤ MOST_PAIRINGS) }
    ensures turns { OnOk result (turns.new ≡ turns.old + length step.entry.terms.now) }
    ensures narrow { (ends : ℕ) → result ≢ Err (NotGlued.Wide ends) }
    ensures full { result ≡ Err NotGlued.Full →
        MOST_PAIRINGS < length (add_all step.entry.powers.now.modulus next.old (map (glued_item step.entry.powers.now.delta step.entry.seam.now pairing.now coefficient) step.entry.terms.now)) }
{
    for term in step.terms {
        let (glued, more) = step.glue(term, pairing, coefficient, turns);
        next.add(step.powers.ring(), glued, more)?;
    }
    Ok(())
}

/// Glues each term to each pairing of the table, and makes of it the next table, which is empty at first.
///
/// `Full` comes where there would be a 262,145th pairing.
pub(crate) fn glue_table(
    step: Step,
    table: &Table,
    next: &mut Table,
    turns: &mut Turns,
) -> Result<(), NotGlued>
    requires codes { (i : ℕ) → i < length table.now → Spells (length step.seam.now.inner) (get_or table.now i (0, 0)).0 }
    requires coefficients { (i : ℕ) → i < length table.now → (get_or table.now i (0, 0)).1 < step.powers.now.modulus }
    requires terms { All (FitsSeam step.powers.now.modulus step.seam.now) step.terms.now }
    requires some { 0 < step.powers.now.modulus }
    requires empty { next.old ≡ [] }
    requires room { turns.old + length table.now * length step.terms.now < 2 ^ 125 }
    ensures added { OnOk result (next.new ≡ add_all step.entry.powers.now.modulus [] (contributions step.entry.powers.now.delta step.entry.seam.now step.entry.terms.now table.now)) }
    ensures few { OnOk result (length next.new ≤ MOST_PAIRINGS) }
    ensures turns { OnOk result (turns.new ≡ turns.old + length table.now * length step.entry.terms.now) }
    ensures narrow { (ends : ℕ) → result ≢ Err (NotGlued.Wide ends) }
    ensures full { result ≡ Err NotGlued.Full →
        MOST_PAIRINGS < length (add_all step.entry.powers.now.modulus [] (contributions step.entry.powers.now.delta step.entry.seam.now step.entry.terms.now table.now)) }
{
    for at in 0..table.len() {
        glue_terms(
            step,
            table.pairing(at),
            table.coefficient_at(at),
            next,
            turns,
        )?;
    }
    Ok(())
}

/// Glues the node to each pairing of the table, whose points have these names, and makes of it the next
/// table. Answers the seam, whose names are then open, in their places.
pub(crate) fn glue_node(
    powers: &LoopPowers,
    names: &[u32],
    node: &Node,
    tables: &mut Tables,
    turns: &mut Turns,
) -> Result<Seam, NotGlued>
    requires { IsReady powers.now.modulus names.now node.now tables.old turns.old }
    ensures seam { IfOk result (IsSeamOf names.now node.now.ends) }
    ensures gathered { IfOk result (λ seam. IsGathered powers.now.modulus (contributions powers.now.delta seam node.now.terms tables.old) tables.new) }
    ensures below { OnOk result (All (λ entry. entry.1 < powers.now.modulus) tables.new) }
    ensures few { OnOk result (length tables.new ≤ MOST_PAIRINGS) }
    ensures turns { OnOk result (turns.new ≡ turns.old + length tables.old * length node.now.terms) }
    ensures node { IsShortNode node.now }
    ensures refused { IfErr result (Explains powers.now.modulus powers.now.delta names.now node.now tables.old) }
{
    let terms = node.terms();
    let seam = kept_seam(names, node)?;
    let step = Step {
        powers,
        seam: &seam,
        terms,
    };
    tables.glue(step, turns)?;
    Ok(seam)
}
