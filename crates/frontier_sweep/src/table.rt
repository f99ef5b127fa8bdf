//! Tables from pairings to coefficients.

ghost use Rattle.std.specs.Prelude.{◌≡◌, ◌≢◌, ◌<◌, ◌≤◌, ◌==◌, ℕ, [], length, false, get_or, ◌∷◌, OnOk, IfOk, IfSome};
ghost use Rattle.std.specs.List.{All};
ghost use Rattle.std.specs.Map.{keys_of, lookup};
ghost use Rattle.std.specs.Option.{unwrap_or};
ghost use Rattle.std.specs.Set.{is_member};
ghost use Rattle.indexmap.specs.Layout.{set_value_at};
ghost use Rattle.arc_pairing.specs.Codes.{code_of};
ghost use Rattle.arc_pairing.specs.Pairings.{IsShortPairing};
ghost use Rattle.frontier_laws.specs.Tables.{add_in};
ghost use Rattle.frontier_sweep.specs.Coded.{AreCoded};

use crate::fault::NotGlued;
use arc_pairing::Pairing;
use frontier_laws::MOST_PAIRINGS;
use indexmap::IndexMap;
use residue_ring::Ring;
use std::alloc::{AllocError, Global};
use std::marker::Model;

/// The coefficients of at most `MOST_PAIRINGS` pairings, by their codes, in the order in which they came, and
/// beside them, in the same order, the pairings, so that none is read back from its code.
///
/// Contracts see a table as the list of its entries, a code with a coefficient each. Its type keeps that each
/// code is that of the pairing at its place.
#[derive(Drop)]
pub(crate) struct Table {
    entries: IndexMap<u128, u64>,
    pairings: Vec<Pairing>,
}

impl Model for Table {
    ghost use Rattle.std.specs.Prelude.{ℕ, List};
    ghost use Rattle.std.specs.Map.{keys_of};
    ghost use Rattle.frontier_sweep.specs.Coded.{AreCoded};

    ghost Value = { List (ℕ × ℕ) };

    ghost view = { λ table. table.entries.entries };

    ghost invariant = { λ table. AreCoded (keys_of table.entries.entries) table.pairings.items };
}

impl Table {
    /// The empty table.
    pub(crate) fn new(alloc: Global) -> Table
        ensures { result ≡ [] }
    {
        Table {
            entries: IndexMap::new(alloc),
            pairings: Vec::new(alloc),
        }
    }

    /// The table of no node: the pairing of no points, which has the code 0, with coefficient 1.
    pub(crate) fn of_none(alloc: Global) -> Result<Table, AllocError>
        ensures { IfOk result (λ table. table ≡ (0, 1) ∷ []) }
    {
        let mut entries = IndexMap::new(alloc);
        let mut pairings = Vec::new(alloc);
        entries.insert(0, 1)?;
        pairings.push(Pairing::from_code(0).unwrap())?;
        Ok(Table { entries, pairings })
    }

    /// How many pairings it has.
    pub(crate) fn len(&self) -> usize
        ensures { result ≡ length self.now }
    {
        self.entries.len()
    }

    /// The pairing at that place.
    #[inline]
    pub(crate) fn pairing(&self, at: usize) -> &Pairing
        requires { at < length self.now }
        ensures code { code_of result.now ≡ (get_or self.now at (0, 0)).0 }
        ensures short { IsShortPairing result.now }
    {
        let pairing = &self.pairings[at];
        let _points = pairing.len();
        pairing
    }

    /// The coefficient at that place.
    #[inline]
    pub(crate) fn coefficient_at(&self, at: usize) -> u64
        requires { at < length self.now }
        ensures { result ≡ (get_or self.now at (0, 0)).1 }
    {
        let (_code, coefficient) = self.entries.get_index(at).unwrap();
        *coefficient
    }

    /// Gives the entry at that place another coefficient.
    #[inline]
    pub(crate) fn set_coefficient(&mut self, at: usize, coefficient: u64)
        requires { at < length self.old }
        ensures { self.new ≡ set_value_at self.old at coefficient }
    {
        *self.entries.get_index_mut(at).unwrap() = coefficient;
    }

    /// The coefficient at the code, and 0 where the code is not there.
    pub(crate) fn coefficient(&self, code: u128) -> u64
        ensures { result ≡ unwrap_or (lookup (◌==◌ code) self.now) 0 }
    {
        match self.entries.get(&code) {
            Some(coefficient) => *coefficient,
            None => 0,
        }
    }

    /// Makes room for so many entries more.
    pub(crate) fn reserve(&mut self, more: usize) -> Result<(), AllocError>
        ensures { self.new ≡ self.old }
    {
        self.entries.reserve(more)?;
        self.pairings.reserve(more)
    }

    /// Empties the table, and makes room for so many entries.
    pub(crate) fn prepare(&mut self, room: usize) -> Result<(), AllocError>
        ensures { OnOk result (self.new ≡ []) }
    {
        self.entries.clear();
        self.pairings.clear();
        self.entries.reserve(room)?;
        self.pairings.reserve(room)
    }

    /// c more at the pairing, which is a residue, as all coefficients are. A new pairing goes last.
    #[inline]
    pub(crate) fn add(&mut self, ring: &Ring, pairing: Pairing, more: u64) -> Result<(), NotGlued>
        requires more { more < ring.now }
        requires below { All (λ entry. entry.1 < ring.now) self.old }
        requires few { length self.old ≤ MOST_PAIRINGS }
        ensures added { OnOk result (self.new ≡ add_in ring.now (code_of pairing) more self.old) }
        ensures few { OnOk result (length self.new ≤ MOST_PAIRINGS) }
        ensures narrow { (ends : ℕ) → result ≢ Err (NotGlued.Wide ends) }
        ensures full { result ≡ Err NotGlued.Full → (is_member ◌==◌ (keys_of self.old) (code_of pairing) ≡ false) × (MOST_PAIRINGS ≤ length self.old) }
    {
        let code = pairing.code();
        match self.entries.get_mut(&code) {
            Some(coefficient) => *coefficient = ring.add(*coefficient, more),
            None => {
                let len = self.entries.len();
                if len >= MOST_PAIRINGS {
                    return Err(NotGlued::Full);
                }
                self.pairings.truncate(len);
                self.pairings.push(pairing)?;
                self.entries.insert(code, more)?;
            }
        }
        Ok(())
    }
}
