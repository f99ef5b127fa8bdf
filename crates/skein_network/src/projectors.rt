//! The projectors of the colours in a list.

ghost use Rattle.std.specs.Prelude.{◌≡◌, ◌≤◌, ◌==◌, ◌++◌, ◌∷◌, [], true, ℕ, OnOk, IfOk, IfErr, ◌⊎◌};
ghost use Rattle.std.specs.List.{All};
ghost use Rattle.std.specs.Set.{is_member};
ghost use Rattle.planar_check.specs.Components.{greatest};
ghost use Rattle.wenzl_table.specs.Tables.{IsFor, IsOf, Keeps, Knows};
ghost use Rattle.wenzl_table.specs.Inverses.{IsFirstCommon};
ghost use Rattle.wenzl_table.specs.declared.found.Found.{Found};
ghost use Rattle.skein_network.specs.Colourings.{Holds, projector_in};
ghost use Rattle.skein_network.specs.Refusals.{IsNoInverse};

use crate::fault::CableFault;
use crate::strand::stands;
use std::alloc::Global;
use wenzl_table::{Found, Notes, Table};

/// Puts the projector of colour n behind the others.
fn push_projector<'a>(
    alloc: Global,
    table: &'a Table,
    n: u32,
    notes: &mut Notes,
    projectors: &mut Vec<Found<'a>>,
) -> Result<(), CableFault>
    requires low { 2 ≤ n }
    requires high { n ≤ table.now.top }
    requires of { IsOf notes.old table.now }
    ensures found { OnOk result ((found : Found) × IsFor (projector_in found) table.now.params n × (projectors.new.items ≡ projectors.old.items ++ found ∷ [])) }
    ensures none { OnOk result ((index common : ℕ) → ¬ IsFirstCommon table.now.params n index common) }
    ensures refused { IfErr result (λ fault. (fault ≡ CableFault.Memory) ⊎ IsNoInverse table.now.params n fault) }
    ensures of { IsOf notes.new table.now }
    ensures kept { Keeps notes.old notes.new }
    ensures known { OnOk result (Knows notes.new n) }
{
    let found = table.projector(alloc, n, notes)?;
    projectors.push(found)?;
    Ok(())
}

/// A projector for each colour of at least 2 in the list; the notes are the table's.
pub(crate) fn find_projectors<'a>(
    alloc: Global,
    table: &'a Table,
    colours: &[u32],
    notes: &mut Notes,
) -> Result<Vec<Found<'a>>, CableFault>
    requires high { greatest colours.now ≤ table.now.top }
    requires of { IsOf notes.old table.now }
    ensures same { IfOk result (λ projectors. All (λ found. (projector_in found).params ≡ table.now.params) projectors.items) }
    ensures held { IfOk result (λ projectors. (n : ℕ) → 2 ≤ n → is_member ◌==◌ colours.now n ≡ true → Holds projectors.items n) }
    ensures none { OnOk result ((index common : ℕ) → ¬ IsFirstCommon table.now.params (greatest colours.now) index common) }
    ensures refused { IfErr result (λ fault. (fault ≡ CableFault.Memory) ⊎ IsNoInverse table.now.params (greatest colours.now) fault) }
    ensures of { IsOf notes.new table.now }
    ensures kept { Keeps notes.old notes.new }
    ensures known { OnOk result ((n : ℕ) → 2 ≤ n → is_member ◌==◌ colours.now n ≡ true → Knows notes.new n) }
{
    let mut projectors = Vec::new(alloc);
    for n in 2..table.top() + 1 {
        if stands(colours, n) {
            push_projector(alloc, table, n, notes, &mut projectors)?;
        }
    }
    Ok(projectors)
}
