//! The two nets of the sum, as planar nets.

ghost use Rattle.std.specs.Prelude.{◌≡◌, None, IfOk};
ghost use Rattle.std.specs.List.{AllByRecursion};
ghost use Rattle.pd_reader.specs.Diagrams.{IsLabel, labels, refusal};
ghost use Rattle.pd_reader.specs.Items.{net_item_labels};
ghost use Rattle.planar_check.specs.Places.{net_item_slots};
ghost use Rattle.planar_check.specs.Planar.{planar_refusal};
ghost use Rattle.tetra_sum.specs.Nets.{theta_net, tetrahedron_net};

use pd_reader::{DiagramFault, NetDiagram, NetItem};
use planar_check::{PlanarFault, PlanarNet, check_net};
use std::alloc::{AllocError, Global};

/// The net of these items, which are planar. The only error is want of memory.
fn planar_net(alloc: Global, items: &[NetItem]) -> Result<PlanarNet, AllocError>
    requires labels { AllByRecursion IsLabel (labels net_item_labels items.now) }
    requires net { refusal net_item_labels items.now ≡ None }
    requires planar { planar_refusal net_item_slots items.now ≡ None }
    ensures { IfOk result (λ net. net ≡ items.now) }
{
    let net = match NetDiagram::new(alloc, items) {
        Ok(net) => net,
        Err(DiagramFault::Memory) => return Err(AllocError),
        Err(_) => unreachable!(),
    };
    match check_net(alloc, net) {
        Ok(net) => Ok(net),
        Err(PlanarFault::Memory) => Err(AllocError),
        Err(PlanarFault::NotPlanar { .. }) => unreachable!(),
    }
}

/// Two vertices joined by the edges 1 to 3. The only error is want of memory.
pub(crate) fn theta_net(alloc: Global) -> Result<PlanarNet, AllocError>
    ensures { IfOk result (λ net. net ≡ theta_net) }
{
    planar_net(alloc, &[NetItem::Y([1, 2, 3]), NetItem::Y([3, 2, 1])])
}

/// The edges 1 to 6 of a tetrahedron. The only error is want of memory.
pub(crate) fn tetrahedron_net(alloc: Global) -> Result<PlanarNet, AllocError>
    ensures { IfOk result (λ net. net ≡ tetrahedron_net) }
{
    let items = [
        NetItem::Y([1, 2, 3]),
        NetItem::Y([1, 5, 6]),
        NetItem::Y([2, 6, 4]),
        NetItem::Y([3, 4, 5]),
    ];
    planar_net(alloc, &items)
}
