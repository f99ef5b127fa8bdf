//! Items of diagrams and nets.

ghost use Rattle.std.specs.Prelude.{◌≡◌, ◌+◌, ◌≤◌, ◌++◌, length, List, ℕ, OnOk, Some, vec_len};
ghost use Rattle.std.specs.List.{concat};
ghost use Rattle.pd_reader.specs.Texts.{item_tokens};
ghost use Rattle.pd_reader.specs.Items.{item_labels, net_item_labels, HasItsSlots, HasItsEdges};

use std::alloc::AllocError;
use std::fmt;

/// An item of a link diagram. A label is a whole number of at least 1 that names an edge.
#[derive(Clone, Copy, Debug, PartialEq, Eq)]
pub enum Item {
    /// A crossing with its four slots counterclockwise from the incoming under strand: the under
    /// strand goes from the first to the third, the over strand joins the second and the fourth
    /// (KnotTheory's `X[a,b,c,d]`).
    X([u32; 4]),
    /// A closed curve without crossings, whose one edge has this label (KnotTheory's `Loop[a]`).
    Loop(u32),
}

/// An item of a net: of a link diagram, or a trivalent vertex.
#[derive(Clone, Copy, Debug, PartialEq, Eq)]
pub enum NetItem {
    /// A crossing, as in a diagram.
    X([u32; 4]),
    /// A vertex with its three edges counterclockwise (this project's own).
    Y([u32; 3]),
    /// A closed curve without crossings, as in a diagram.
    Loop(u32),
}

/// As in a text: `X[1,4,2,5]`, `Loop[3]`.
impl fmt::Display for Item {
    ghost output = { λ item. Some (concat (item_tokens item)) };

    fn fmt<W: fmt::Write>(&self, f: &mut fmt::Formatter<W>) -> fmt::Result {
        match self {
            Item::X([a, b, c, d]) => write!(f, "X[{a},{b},{c},{d}]"),
            Item::Loop(label) => write!(f, "Loop[{label}]"),
        }
    }
}

/// What labels stand at: a crossing has four, a vertex three, and a loop its label twice.
pub trait Labelled {
    /// The labels that stand at it, once for each standing.
    ghost labels: { Self → List ℕ };

    /// It has as many slots or edges as its kind has.
    ghost has_size: { Self → Type 0 };

    /// Puts the labels behind those of `into`.
    fn push_labels(&self, into: &mut Vec<u32>) -> Result<(), AllocError>
        ensures items { OnOk result (into.new.items ≡ into.old.items ++ labels self.now) }
        ensures few { OnOk result (vec_len into.new ≤ vec_len into.old + 4) }
        ensures sized { has_size self.now };
}

impl Labelled for Item {
    ghost labels = { item_labels };

    ghost has_size = { HasItsSlots };

    fn push_labels(&self, into: &mut Vec<u32>) -> Result<(), AllocError> {
        match self {
            Item::X(slots) => into.extend_from_slice(slots),
            Item::Loop(label) => into.extend_from_slice(&[*label, *label]),
        }
    }
}

impl Labelled for NetItem {
    ghost labels = { net_item_labels };

    ghost has_size = { HasItsEdges };

    fn push_labels(&self, into: &mut Vec<u32>) -> Result<(), AllocError> {
        match self {
            NetItem::X(slots) => into.extend_from_slice(slots),
            NetItem::Y(edges) => into.extend_from_slice(edges),
            NetItem::Loop(label) => into.extend_from_slice(&[*label, *label]),
        }
    }
}
