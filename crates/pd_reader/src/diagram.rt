//! Diagrams and nets: items in which each label stands twice.

ghost use Rattle.std.specs.Prelude.{◌≡◌, ◌⊎◌, ◌<◌, ◌≤◌, None, Some, length, IfOk, IfErr, OnOk, List};
ghost use Rattle.std.specs.List.{AllByRecursion};
ghost use Rattle.pd_reader.specs.Items.{item_labels, net_item_labels};
ghost use Rattle.pd_reader.specs.Diagrams.{IsDiagram, IsNet, IsLabel, labels, refusal};

use crate::fault::DiagramFault;
use crate::item::{Item, Labelled, NetItem};
use crate::label::{labels, unpaired};
use std::alloc::{AllocError, Global};
use std::marker::Model;

/// A link diagram as a list of at most 256 items, in which each label is 1 to 2,000,000 and stands
/// twice. A loop counts as two standings of its label.
///
/// Contracts see a diagram as the list of its items. `IsDiagram` says what each such list keeps.
#[derive(Drop, Debug)]
pub struct Diagram {
    pub(crate) items: Vec<Item>,
}

impl Model for Diagram {
    ghost use Rattle.std.specs.Prelude.{List};
    ghost use Rattle.pd_reader.specs.declared.item.Item.{Item};

    ghost Value = { List Item };

    ghost use Rattle.pd_reader.specs.Diagrams.{IsDiagram};

    ghost view = { λ diagram. diagram.items.items };

    ghost invariant = { λ diagram. IsDiagram diagram.items.items };
}

/// The most items of a diagram or a net.
pub const MOST_ITEMS: u32 = 256;

/// The items, where there is no reason why they are no diagram, of labels that are in range.
fn checked<I: Labelled + Copy>(alloc: Global, items: &[I]) -> Result<Vec<I>, DiagramFault>
    ensures made { IfOk result (λ checked. checked.items ≡ items.now) }
    ensures sized { OnOk result (AllByRecursion I.has_size items.now) }
    ensures ok { OnOk result (refusal I.labels items.now ≡ None) }
    ensures err { IfErr result (λ fault. (fault ≡ DiagramFault.Memory) ⊎ (refusal I.labels items.now ≡ Some fault)) }
{
    if items.len() > MOST_ITEMS as usize {
        return Err(DiagramFault::TooMany { limit: MOST_ITEMS });
    }
    let labels = labels(alloc, items)?;
    match unpaired(alloc, &labels)? {
        Some((label, count)) => Err(DiagramFault::Label {
            label,
            count: count as u32,
        }),
        None => Ok(Vec::from_slice(alloc, items)?),
    }
}

impl Diagram {
    /// The diagram with these items.
    ///
    /// `TooMany` holds 256 and comes past 256 items. `Label` holds the least label that doesn't stand
    /// twice, and how often it stands: 1 and 3 for `X[1,1,1,2]`. `Memory` is want of memory.
    pub fn new(alloc: Global, items: &[Item]) -> Result<Diagram, DiagramFault>
        requires { AllByRecursion IsLabel (labels item_labels items.now) }
        ensures made { IfOk result (λ diagram. diagram ≡ items.now) }
        ensures ok { OnOk result (refusal item_labels items.now ≡ None) }
        // A refusal names the first reason, but where memory runs out.
        ensures refused { IfErr result (λ fault. (fault ≡ DiagramFault.Memory) ⊎ (refusal item_labels items.now ≡ Some fault)) }
    {
        Ok(Diagram {
            items: checked(alloc, items)?,
        })
    }

    /// The diagram with items which are one already, so that nothing is looked at again.
    ///
    /// The only error is want of memory.
    pub fn of_paired(alloc: Global, items: &[Item]) -> Result<Diagram, AllocError>
        requires { IsDiagram items.now }
        ensures { IfOk result (λ diagram. diagram ≡ items.now) }
    {
        Ok(Diagram {
            items: Vec::from_slice(alloc, items)?,
        })
    }

    /// The items, in the order in which they were given.
    pub fn items(&self) -> &[Item]
        ensures items { result.now ≡ self.now }
        ensures diagram { IsDiagram self.now }
    {
        &self.items
    }
}

/// A net as a list of at most 256 items, in which each label is 1 to 2,000,000 and stands twice.
///
/// Contracts see a net as the list of its items. `IsNet` says what each such list keeps.
#[derive(Drop, Debug)]
pub struct NetDiagram {
    items: Vec<NetItem>,
}

impl Model for NetDiagram {
    ghost use Rattle.std.specs.Prelude.{List};
    ghost use Rattle.pd_reader.specs.declared.item.NetItem.{NetItem};

    ghost Value = { List NetItem };

    ghost use Rattle.pd_reader.specs.Diagrams.{IsNet};

    ghost view = { λ net. net.items.items };

    ghost invariant = { λ net. IsNet net.items.items };
}

impl NetDiagram {
    /// The net with these items.
    ///
    /// The refusals are those of `Diagram::new`.
    pub fn new(alloc: Global, items: &[NetItem]) -> Result<NetDiagram, DiagramFault>
        requires { AllByRecursion IsLabel (labels net_item_labels items.now) }
        ensures made { IfOk result (λ net. net ≡ items.now) }
        ensures ok { OnOk result (refusal net_item_labels items.now ≡ None) }
        // A refusal names the first reason, but where memory runs out.
        ensures refused { IfErr result (λ fault. (fault ≡ DiagramFault.Memory) ⊎ (refusal net_item_labels items.now ≡ Some fault)) }
    {
        Ok(NetDiagram {
            items: checked(alloc, items)?,
        })
    }

    /// The items, in the order in which they were given.
    pub fn items(&self) -> &[NetItem]
        ensures items { result.now ≡ self.now }
        ensures net { IsNet self.now }
    {
        &self.items
    }
}
