//! The values of a net that are known, so that it is summed once for each colours that occur.

ghost use Rattle.std.specs.Prelude.{◌≡◌, ◌⊎◌, ◌<◌, ℕ, None, Ok, Err, IfOk, IfErr, OnOk, IfSome};
ghost use Rattle.std.specs.List.{Contains};
ghost use Rattle.planar_check.specs.Components.{greatest};
ghost use Rattle.frontier_sweep.specs.declared.fault.SweepFault.TheVariants.{Memory};
ghost use Rattle.wenzl_table.specs.Inverses.{IsFirstCommon};
ghost use Rattle.wenzl_table.specs.Tables.{IsOf, Keeps};
ghost use Rattle.skein_network.specs.Refusals.{net_refusal};
ghost use Rattle.root_quantum.specs.Parameters.{Parameters};
ghost use Rattle.tetra_sum.specs.Nets.{net_value, theta_net, tetrahedron_net};
ghost use Rattle.tetra_sum.specs.Known.{IsStore};
ghost use Rattle.tetra_sum.specs.declared.known.Known.{Known};

use crate::contraction::net_value;
use crate::nets::{tetrahedron_net, theta_net};
use frontier_sweep::SweepFault;
use planar_check::PlanarNet;
use std::alloc::{AllocError, Global};
use wenzl_table::{Notes, Table};

/// The value of a net at colours of its labels.
#[derive(Drop)]
pub(crate) struct Known {
    /// The colours.
    pub colours: Vec<u32>,
    /// The value.
    pub value: u64,
}

/// A net with the values that are known.
#[derive(Drop)]
pub(crate) struct Store {
    /// The net.
    pub net: PlanarNet,
    /// Its values, each at other colours.
    pub known: Vec<Known>,
}

/// The value that is known at these colours.
fn find(known: &[Known], colours: &[u32]) -> Option<u64>
    ensures { IfSome result (λ value. (there : Known) × Contains known.now there × (there.colours.items ≡ colours.now) × (there.value ≡ value)) }
{
    for there in known {
        if there.colours.as_slice() == colours {
            return Some(there.value);
        }
    }
    None
}

impl Store {
    /// Two vertices joined by three edges, with no value yet.
    pub(crate) fn theta(alloc: Global) -> Result<Store, AllocError>
        ensures net { IfOk result (λ store. store.net ≡ theta_net) }
        ensures store { IfOk result (λ store. (p : Parameters) → IsStore p store) }
    {
        let net = theta_net(alloc)?;
        Ok(Store {
            net,
            known: Vec::new(alloc),
        })
    }

    /// The edges of a tetrahedron, with no value yet.
    pub(crate) fn tetrahedron(alloc: Global) -> Result<Store, AllocError>
        ensures net { IfOk result (λ store. store.net ≡ tetrahedron_net) }
        ensures store { IfOk result (λ store. (p : Parameters) → IsStore p store) }
    {
        let net = tetrahedron_net(alloc)?;
        Ok(Store {
            net,
            known: Vec::new(alloc),
        })
    }

    /// The value of the net at these colours, which fit and have projectors, its nodes taken as they are listed; or the first limit that
    /// this meets. It is summed once, and known from then on. The notes are the table's. After an error nothing is said of what is known.
    pub(crate) fn value(
        &mut self,
        alloc: Global,
        table: &Table,
        colours: &[u32],
        notes: &mut Notes,
    ) -> Result<u64, SweepFault>
        requires of { IsOf notes.old table.now }
        requires fits { net_refusal table.now.top self.old.net colours.now ≡ None }
        requires inverses { (index common : ℕ) → ¬ IsFirstCommon table.now.params (greatest colours.now) index common }
        requires store { IsStore table.now.params self.old }
        ensures value { IfOk result (λ value. net_value table.now.params self.old.net colours.now ≡ Ok value) }
        ensures below { IfOk result (λ value. value < table.now.params.modulus) }
        ensures refused { IfErr result (λ fault. (fault ≡ Memory) ⊎ (net_value table.now.params self.old.net colours.now ≡ Err fault)) }
        ensures net { self.new.net ≡ self.old.net }
        ensures store { OnOk result (IsStore table.now.params self.new) }
        ensures of { IsOf notes.new table.now }
        ensures kept { Keeps notes.old notes.new }
    {
        if let Some(value) = find(&self.known, colours) {
            return Ok(value);
        }
        let value = net_value(alloc, table, &self.net, colours, notes)?;
        let colours = match Vec::from_slice(alloc, colours) {
            Ok(colours) => colours,
            Err(_) => return Err(SweepFault::Memory),
        };
        match self.known.push(Known { colours, value }) {
            Ok(()) => Ok(value),
            Err(_) => Err(SweepFault::Memory),
        }
    }
}
