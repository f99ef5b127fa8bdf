//! The weight of a colouring.

ghost use Rattle.std.specs.Prelude.{◌≡◌, ◌⊎◌, ◌<◌, None, Some, IfOk, IfErr, OnOk};
ghost use Rattle.ring_identities.specs.Residues.{residue};
ghost use Rattle.wenzl_table.specs.Tables.{IsOf, Keeps};
ghost use Rattle.root_quantum.specs.Parameters.{Parameters};
ghost use Rattle.tetra_sum.specs.Ready.{IsReady};
ghost use Rattle.tetra_sum.specs.Refusals.{colouring_refusal};
ghost use Rattle.tetra_sum.specs.Stores.{AreStores};
ghost use Rattle.tetra_sum.specs.Sums.{text_labels, weight};

use crate::fault::TetraFault;
use crate::products::{Colouring, deltas, tets, theta_inverses};
use crate::stores::Stores;
use std::alloc::Global;
use tetra_reader::Tetra;
use wenzl_table::{Notes, Table};

/// The weight of a colouring that all faces allow. The notes are the table's.
///
/// A refusal is the first of the faces, or else the first of the tetrahedra.
pub(crate) fn weight(
    alloc: Global,
    table: &Table,
    tetra: &Tetra,
    colouring: &Colouring,
    stores: &mut Stores,
    notes: &mut Notes,
) -> Result<u64, TetraFault>
    requires of { IsOf notes.old table.now }
    requires stores { AreStores table.now.params stores.old }
    requires labels { colouring.now.labels.now ≡ text_labels tetra.now }
    requires ready { IsReady table.now tetra.now colouring.now.colours.now }
    ensures value { IfOk result (λ found. found ≡ residue table.now.params.modulus (weight table.now.params tetra.now colouring.now.colours.now)) }
    ensures below { IfOk result (λ found. found < table.now.params.modulus) }
    ensures none { OnOk result (colouring_refusal table.now.params tetra.now colouring.now.number colouring.now.colours.now ≡ None) }
    ensures refused { IfErr result (λ fault. (fault ≡ TetraFault.Memory)
        ⊎ (colouring_refusal table.now.params tetra.now colouring.now.number colouring.now.colours.now ≡ Some fault)) }
    ensures stores { OnOk result (AreStores table.now.params stores.new) }
    ensures of { IsOf notes.new table.now }
    ensures kept { Keeps notes.old notes.new }
{
    let inverses = match theta_inverses(alloc, table, tetra, colouring, &mut stores.theta, notes) {
        Ok(inverses) => inverses,
        Err(fault) => return Err(fault),
    };
    let values = match tets(
        alloc,
        table,
        tetra,
        colouring,
        &mut stores.tetrahedron,
        notes,
    ) {
        Ok(values) => values,
        Err(fault) => return Err(fault),
    };
    let params = table.params();
    let ring = params.ring();
    let front = ring.mul(deltas(params, colouring.colours), values);
    Ok(ring.mul(front, inverses))
}
