//! What the faces and the tetrahedra of a colouring give.

ghost use Rattle.std.specs.Prelude.{◌≡◌, ◌⊎◌, ◌<◌, ℕ, None, Some, Err, IfOk, IfErr, OnOk};
ghost use Rattle.planar_check.specs.Components.{greatest};
ghost use Rattle.strand_algebra.specs.Projectors.{inverse_of};
ghost use Rattle.wenzl_table.specs.Inverses.{IsFirstCommon};
ghost use Rattle.wenzl_table.specs.Tables.{IsOf, Keeps};
ghost use Rattle.skein_network.specs.Refusals.{net_refusal};
ghost use Rattle.tetra_sum.specs.Nets.{theta_net, tetrahedron_net, theta, tet};
ghost use Rattle.tetra_sum.specs.Known.{IsStore};
ghost use Rattle.tetra_sum.specs.Refusals.{limit_at, face_refusal, tetrahedron_refusal};

use crate::fault::TetraFault;
use crate::known::Store;
use frontier_sweep::SweepFault;
use residue_ring::Common;
use std::alloc::Global;
use wenzl_table::{Notes, Table};

/// The fault of a net's sum in the colouring with that number.
fn limit_at(number: u64, fault: SweepFault) -> TetraFault
    ensures { result ≡ limit_at number fault }
{
    match fault {
        SweepFault::Wide { step, ends } => TetraFault::Wide {
            colouring: number,
            step,
            ends,
        },
        SweepFault::Table { step } => TetraFault::Table {
            colouring: number,
            step,
        },
        SweepFault::Memory => TetraFault::Memory,
    }
}

/// The inverse of the theta of a face of these colours, which fit and have projectors: of the face with that number, in the colouring
/// with that number. The notes are the table's.
///
/// `Wide` and `Table` come exactly where the net's sum meets that limit, and `Theta` exactly where the theta shares a factor with m.
pub(crate) fn inverse_theta(
    alloc: Global,
    table: &Table,
    store: &mut Store,
    number: u64,
    face: u32,
    colours: &[u32],
    notes: &mut Notes,
) -> Result<u64, TetraFault>
    requires of { IsOf notes.old table.now }
    requires net { store.old.net ≡ theta_net }
    requires store { IsStore table.now.params store.old }
    requires fits { net_refusal table.now.top theta_net colours.now ≡ None }
    requires inverses { (index common : ℕ) → ¬ IsFirstCommon table.now.params (greatest colours.now) index common }
    ensures value { IfOk result (λ inverse. inverse ≡ inverse_of table.now.params.modulus (theta table.now.params colours.now)) }
    ensures below { IfOk result (λ inverse. inverse < table.now.params.modulus) }
    ensures none { OnOk result (face_refusal table.now.params number face colours.now ≡ None) }
    ensures refused { IfErr result (λ fault. (fault ≡ TetraFault.Memory) ⊎ (face_refusal table.now.params number face colours.now ≡ Some fault)) }
    ensures net { store.new.net ≡ theta_net }
    ensures store { OnOk result (IsStore table.now.params store.new) }
    ensures of { IsOf notes.new table.now }
    ensures kept { Keeps notes.old notes.new }
{
    let theta = match store.value(alloc, table, colours, notes) {
        Ok(theta) => theta,
        Err(fault) => return Err(limit_at(number, fault)),
    };
    match table.params().ring().inverse(theta) {
        Ok(inverse) => Ok(inverse),
        Err(Common { gcd }) => Err(TetraFault::Theta {
            colouring: number,
            face,
            common: gcd,
        }),
    }
}

/// The value of a tetrahedron's net at these colours, which fit and have projectors, in the colouring with that number. The notes are
/// the table's.
///
/// `Wide` and `Table` come exactly where the net's sum meets that limit.
pub(crate) fn tet_value(
    alloc: Global,
    table: &Table,
    store: &mut Store,
    number: u64,
    colours: &[u32],
    notes: &mut Notes,
) -> Result<u64, TetraFault>
    requires of { IsOf notes.old table.now }
    requires net { store.old.net ≡ tetrahedron_net }
    requires store { IsStore table.now.params store.old }
    requires fits { net_refusal table.now.top tetrahedron_net colours.now ≡ None }
    requires inverses { (index common : ℕ) → ¬ IsFirstCommon table.now.params (greatest colours.now) index common }
    ensures value { IfOk result (λ value. value ≡ tet table.now.params colours.now) }
    ensures below { IfOk result (λ value. value < table.now.params.modulus) }
    ensures none { OnOk result (tetrahedron_refusal table.now.params number colours.now ≡ None) }
    ensures refused { IfErr result (λ fault. (fault ≡ TetraFault.Memory) ⊎ (tetrahedron_refusal table.now.params number colours.now ≡ Some fault)) }
    ensures net { store.new.net ≡ tetrahedron_net }
    ensures store { OnOk result (IsStore table.now.params store.new) }
    ensures of { IsOf notes.new table.now }
    ensures kept { Keeps notes.old notes.new }
{
    match store.value(alloc, table, colours, notes) {
        Ok(value) => Ok(value),
        Err(fault) => Err(limit_at(number, fault)),
    }
}
