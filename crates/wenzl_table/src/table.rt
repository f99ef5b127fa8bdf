//! The table of projectors that threads share.

ghost use Rattle.std.specs.Prelude.{◌≡◌, ◌≤◌, ◌↔◌, ℕ, Some, IfOk, IsTrue};
ghost use Rattle.root_quantum.specs.Parameters.{top_colour};
ghost use Rattle.wenzl_table.specs.Inverses.{IsFirstCommon};
ghost use Rattle.wenzl_table.specs.Tables.{IsFor, IsOf, Keeps, Knows, known};
ghost use Rattle.wenzl_table.specs.Found.{Finds};

use crate::building::projector;
use crate::fault::WenzlFault;
use crate::found::Found;
use crate::inverses::{FirstCommon, Inverses};
use crate::notes::Notes;
use crate::projector::Projector;
use crate::shape::Table;
use once_cell::race::OnceBox;
use root_quantum::Params;
use std::alloc::{AllocError, Global};

/// Whether a projector is for these parameters and of this colour.
fn is_for(projector: &Projector, params: &Params, n: u32) -> bool
    ensures { IsTrue result ↔ IsFor projector.now params.now n }
{
    projector.params() == params && projector.colour() == n
}

/// The projector in a box.
fn boxed(alloc: Global, inverses: Inverses) -> Result<Box<Projector>, AllocError> {
    Ok(Box::new(alloc, projector(alloc, &inverses)?)?)
}

impl Table {
    /// A table for the colours from 2 to `top`, which is at most the top colour. All cells are empty. The only
    /// error is want of memory.
    pub fn new(alloc: Global, params: Params, top: u32) -> Result<Table, AllocError>
        requires { top ≤ top_colour params }
        ensures { IfOk result (λ table. (table.params ≡ params) × (table.top ≡ top)) }
    {
        let mut cells = Vec::new(alloc);
        for _ in 0..top.saturating_sub(1) {
            cells.push(OnceBox::new(alloc))?;
        }
        Ok(Table { params, top, cells })
    }

    /// The parameters. It takes no memory.
    pub fn params(&self) -> &Params
        ensures { result.now ≡ self.now.params }
    {
        &self.params
    }

    /// The greatest colour. It takes no memory.
    pub fn top(&self) -> u32
        ensures value { result ≡ self.now.top }
        ensures few { result ≤ top_colour self.now.params }
    {
        self.top
    }

    /// A note for each cell, which knows nothing yet. The only error is want of memory.
    pub fn notes(&self, alloc: Global) -> Result<Notes, AllocError>
        ensures of { IfOk result (λ notes. IsOf notes self.now) }
    {
        let mut list = Vec::new(alloc);
        for cell in &self.cells {
            list.push(cell.note())?;
        }
        Ok(Notes { list })
    }

    /// What the cell of a colour holds, for good: what a thread put there before, or what is built now.
    fn held<'a>(
        &'a self,
        alloc: Global,
        inverses: Inverses,
        notes: &mut Notes,
    ) -> Result<&'a Projector, AllocError>
        requires low { 2 ≤ inverses.colour }
        requires high { inverses.colour ≤ self.now.top }
        requires of { IsOf notes.old self.now }
        ensures of { IsOf notes.new self.now }
        ensures kept { Keeps notes.old notes.new }
        ensures known { IfOk result (λ held. known notes.new inverses.colour ≡ Some held.now) }
    {
        let at = (inverses.colour - 2) as usize;
        let cell = &self.cells[at];
        let note = &mut notes.list[at];
        cell.get_or_try_init_as(move || boxed(alloc, inverses), note)
    }

    /// The projector of colour n, from 2 to the table's top; the notes are this table's. Where no thread has
    /// put one into the cell it is built and put there. Two threads may both build one, and the first that is
    /// put there stays.
    ///
    /// `NoInverse` comes exactly where one of `Delta_1` to `Delta_(n-1)` shares a factor with m, and holds the
    /// least such index and the greatest common divisor. `Memory` is want of memory.
    pub fn projector<'a>(
        &'a self,
        alloc: Global,
        n: u32,
        notes: &mut Notes,
    ) -> Result<Found<'a>, WenzlFault>
        requires low { 2 ≤ n }
        requires high { n ≤ self.now.top }
        requires of { IsOf notes.old self.now }
        ensures found { IfOk result (λ found. Finds found self.now.params n notes.new) }

        // After every answer the notes are this table's, and know what they knew.
        ensures of { IsOf notes.new self.now }
        ensures kept { Keeps notes.old notes.new }
        ensures known { IfOk result (λ _. Knows notes.new n) }

        // The inverses are looked for before memory is asked for.
        ensures no_inverse { (index common : ℕ) → (result ≡ Err (WenzlFault.NoInverse index common)) ↔ IsFirstCommon self.now.params n index common }
    {
        let inverses = match Inverses::find(&self.params, n) {
            Ok(inverses) => inverses,
            Err(FirstCommon { index, common }) => {
                return Err(WenzlFault::NoInverse { index, common });
            }
        };
        match self.found(alloc, inverses, notes) {
            Ok(found) => Ok(found),
            Err(AllocError) => Err(WenzlFault::Memory),
        }
    }

    /// What the cell holds, or where that isn't for this table's parameters and this colour, a projector of the
    /// caller's own.
    fn found<'a>(
        &'a self,
        alloc: Global,
        inverses: Inverses,
        notes: &mut Notes,
    ) -> Result<Found<'a>, AllocError>
        requires low { 2 ≤ inverses.colour }
        requires high { inverses.colour ≤ self.now.top }
        requires params { inverses.params ≡ self.now.params }
        requires of { IsOf notes.old self.now }
        ensures found { IfOk result (λ found. Finds found self.now.params inverses.colour notes.new) }
        ensures of { IsOf notes.new self.now }
        ensures kept { Keeps notes.old notes.new }
        ensures known { IfOk result (λ _. Knows notes.new inverses.colour) }
    {
        let held = self.held(alloc, inverses, notes)?;
        if is_for(held, &inverses.params, inverses.colour) {
            Ok(Found::Shared(held))
        } else {
            Ok(Found::Own(projector(alloc, &inverses)?))
        }
    }
}
