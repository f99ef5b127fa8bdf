//! The three products of a colouring's weight.

ghost use Rattle.std.specs.Prelude.{◌≡◌, ◌⊎◌, ◌<◌, ◌≤◌, None, Some, IfOk, IfErr, OnOk};
ghost use Rattle.std.specs.List.{All};
ghost use Rattle.ring_identities.specs.Residues.{residue};
ghost use Rattle.coloured_values.specs.Surgery.{deltas};
ghost use Rattle.wenzl_table.specs.Tables.{IsOf, Keeps};
ghost use Rattle.tetra_reader.specs.Tetras.{faces_of, tetrahedra_of};
ghost use Rattle.tetra_sum.specs.Known.{IsStore};
ghost use Rattle.tetra_sum.specs.Nets.{theta_net, tetrahedron_net};
ghost use Rattle.tetra_sum.specs.Ready.{IsReady};
ghost use Rattle.tetra_sum.specs.Refusals.{faces_refusal, tetrahedra_refusal};
ghost use Rattle.tetra_sum.specs.Sums.{text_labels, tets, theta_inverses};

use crate::fault::TetraFault;
use crate::known::Store;
use crate::labels::{face_colours, tetrahedron_colours};
use crate::places::{inverse_theta, tet_value};
use root_quantum::Params;
use std::alloc::Global;
use tetra_reader::Tetra;
use wenzl_table::{Notes, Table};

/// A colouring of the labels of a text.
#[derive(Drop)]
pub(crate) struct Colouring<'a> {
    /// Its number, from 1 among all colourings.
    pub number: u64,
    /// The labels of the text, each once, increasing.
    pub labels: &'a [u32],
    /// A colour for each of them.
    pub colours: &'a [u32],
}

/// The product of the `Delta` of the colours.
pub(crate) fn deltas(params: &Params, colours: &[u32]) -> u64
    requires { All (λ colour. colour ≤ 16) colours.now }
    ensures value { result ≡ residue params.now.modulus (deltas params.now colours.now) }
    ensures below { result < params.now.modulus }
{
    let mut product = 1;
    for colour in colours {
        product = params.ring().mul(product, params.delta(*colour));
    }
    product
}

/// The product of the inverses of the theta of the faces, which the colouring is allowed by. The notes are the table's.
///
/// A refusal is that of the first face which has one.
pub(crate) fn theta_inverses(
    alloc: Global,
    table: &Table,
    tetra: &Tetra,
    colouring: &Colouring,
    store: &mut Store,
    notes: &mut Notes,
) -> Result<u64, TetraFault>
    requires of { IsOf notes.old table.now }
    requires net { store.old.net ≡ theta_net }
    requires store { IsStore table.now.params store.old }
    requires labels { colouring.now.labels.now ≡ text_labels tetra.now }
    requires ready { IsReady table.now tetra.now colouring.now.colours.now }
    ensures value { IfOk result (λ product. product ≡ residue table.now.params.modulus
        (theta_inverses table.now.params (text_labels tetra.now) colouring.now.colours.now (faces_of tetra.now))) }
    ensures below { IfOk result (λ product. product < table.now.params.modulus) }
    ensures none { OnOk result (faces_refusal table.now.params (text_labels tetra.now) colouring.now.number colouring.now.colours.now (faces_of tetra.now) ≡ None) }
    ensures refused { IfErr result (λ fault. (fault ≡ TetraFault.Memory)
        ⊎ (faces_refusal table.now.params (text_labels tetra.now) colouring.now.number colouring.now.colours.now (faces_of tetra.now) ≡ Some fault)) }
    ensures net { store.new.net ≡ theta_net }
    ensures store { OnOk result (IsStore table.now.params store.new) }
    ensures of { IsOf notes.new table.now }
    ensures kept { Keeps notes.old notes.new }
{
    let faces = tetra.faces();
    let mut product = 1;
    for i in 0..faces.len() {
        let colours = face_colours(colouring.labels, colouring.colours, &faces[i]);
        let face = i as u32 + 1;
        match inverse_theta(alloc, table, store, colouring.number, face, &colours, notes) {
            Ok(inverse) => product = table.params().ring().mul(product, inverse),
            Err(fault) => return Err(fault),
        }
    }
    Ok(product)
}

/// The product of the values of the tetrahedra, whose faces the colouring is allowed by. The notes are the table's.
///
/// A refusal is that of the first tetrahedron which has one.
pub(crate) fn tets(
    alloc: Global,
    table: &Table,
    tetra: &Tetra,
    colouring: &Colouring,
    store: &mut Store,
    notes: &mut Notes,
) -> Result<u64, TetraFault>
    requires of { IsOf notes.old table.now }
    requires net { store.old.net ≡ tetrahedron_net }
    requires store { IsStore table.now.params store.old }
    requires labels { colouring.now.labels.now ≡ text_labels tetra.now }
    requires ready { IsReady table.now tetra.now colouring.now.colours.now }
    ensures value { IfOk result (λ product. product ≡ residue table.now.params.modulus
        (tets table.now.params (text_labels tetra.now) colouring.now.colours.now (tetrahedra_of tetra.now))) }
    ensures below { IfOk result (λ product. product < table.now.params.modulus) }
    ensures none { OnOk result (tetrahedra_refusal table.now.params (text_labels tetra.now) colouring.now.number colouring.now.colours.now (tetrahedra_of tetra.now) ≡ None) }
    ensures refused { IfErr result (λ fault. (fault ≡ TetraFault.Memory)
        ⊎ (tetrahedra_refusal table.now.params (text_labels tetra.now) colouring.now.number colouring.now.colours.now (tetrahedra_of tetra.now) ≡ Some fault)) }
    ensures net { store.new.net ≡ tetrahedron_net }
    ensures store { OnOk result (IsStore table.now.params store.new) }
    ensures of { IsOf notes.new table.now }
    ensures kept { Keeps notes.old notes.new }
{
    let mut product = 1;
    for tetrahedron in tetra.tetrahedra() {
        let colours = tetrahedron_colours(colouring.labels, colouring.colours, tetrahedron);
        match tet_value(alloc, table, store, colouring.number, &colours, notes) {
            Ok(value) => product = table.params().ring().mul(product, value),
            Err(fault) => return Err(fault),
        }
    }
    Ok(product)
}
