//! The table of a contraction, and what the next one is made with.

ghost use Rattle.std.specs.Prelude.{◌≡◌, ◌≢◌, ◌<◌, ◌≤◌, ◌+◌, ◌*◌, ◌^◌, ◌==◌, ℕ, [], ◌∷◌, length, get_or, OnOk, IfOk};
ghost use Rattle.std.specs.List.{All, IsDistinct};
ghost use Rattle.std.specs.Map.{keys_of, lookup};
ghost use Rattle.std.specs.Option.{unwrap_or};
ghost use Rattle.frontier_laws.specs.Tables.{contributions};
ghost use Rattle.kept_tables.specs.KeptTables.{IsGathered};
ghost use Rattle.frontier_sweep.specs.Steps.{FitsSeam, Spells, IsOverfull};

use crate::fault::NotGlued;
use crate::in_place::{glue_in_place, kept_and_other};
use crate::step::{Step, glue_table};
use crate::table::Table;
use arc_pairing::{MOST_TERMS, Turns};
use frontier_laws::MOST_PAIRINGS;
use std::alloc::{AllocError, Global};
use std::marker::Model;
use std::mem;

/// The table of a contraction; beside it a second one and a list of coefficients, with which the next table is made, so
/// that no step makes its own.
///
/// Contracts see the table.
#[derive(Drop)]
pub(crate) struct Tables {
    table: Table,
    next: Table,
    saved: Vec<u64>,
}

impl Model for Tables {
    ghost use Rattle.std.specs.Prelude.{ℕ, List};

    ghost Value = { List (ℕ × ℕ) };

    ghost view = { λ tables. tables.table };
}

impl Tables {
    /// The table of no node: the pairing of no points, which has the code 0, with coefficient 1.
    pub(crate) fn of_none(alloc: Global) -> Result<Tables, AllocError>
        ensures { IfOk result (λ table. table ≡ (0, 1) ∷ []) }
    {
        let table = Table::of_none(alloc)?;
        Ok(Tables {
            table,
            next: Table::new(alloc),
            saved: Vec::new(alloc),
        })
    }

    /// The coefficient at the code, and 0 where the code is not there.
    pub(crate) fn coefficient(&self, code: u128) -> u64
        ensures { result ≡ unwrap_or (lookup (◌==◌ code) self.now) 0 }
    {
        self.table.coefficient(code)
    }

    /// Glues each term to each pairing of the table, and makes of it the next table: in place, where one of two terms
    /// changes nothing, and else anew.
    ///
    /// `Full` comes where there would be a 262,145th pairing.
    pub(crate) fn glue(&mut self, step: Step, turns: &mut Turns) -> Result<(), NotGlued>
        requires codes { (i : ℕ) → i < length self.old → Spells (length step.seam.now.inner) (get_or self.old i (0, 0)).0 }
        requires coefficients { (i : ℕ) → i < length self.old → (get_or self.old i (0, 0)).1 < step.powers.now.modulus }
        requires distinct { IsDistinct ◌==◌ (keys_of self.old) }
        requires few { length self.old ≤ MOST_PAIRINGS }
        requires terms { All (FitsSeam step.powers.now.modulus step.seam.now) step.terms.now }
        requires few_terms { length step.terms.now ≤ MOST_TERMS }
        requires some { 0 < step.powers.now.modulus }
        requires room { turns.old + length self.old * length step.terms.now < 2 ^ 125 }
        ensures gathered { OnOk result (IsGathered step.entry.powers.now.modulus (contributions step.entry.powers.now.delta step.entry.seam.now step.entry.terms.now self.old) self.new) }
        ensures below { OnOk result (All (λ entry. entry.1 < step.entry.powers.now.modulus) self.new) }
        ensures few { OnOk result (length self.new ≤ MOST_PAIRINGS) }
        ensures turns { OnOk result (turns.new ≡ turns.old + length self.old * length step.entry.terms.now) }
        ensures narrow { (ends : ℕ) → result ≢ Err (NotGlued.Wide ends) }
        ensures full { result ≡ Err NotGlued.Full → IsOverfull step.entry.powers.now.modulus (contributions step.entry.powers.now.delta step.entry.seam.now step.entry.terms.now self.old) }
    {
        match kept_and_other(step) {
            Some((kept, other)) => {
                glue_in_place(step, kept, other, &mut self.table, &mut self.saved, turns)
            }
            None => {
                let room = self.table.len() * step.terms.len();
                self.next.prepare(room.min(MOST_PAIRINGS))?;
                glue_table(step, &self.table, &mut self.next, turns)?;
                mem::swap(&mut self.table, &mut self.next);
                Ok(())
            }
        }
    }
}
