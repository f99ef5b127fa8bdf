//! What a table is made of.

use crate::projector::Projector;
use once_cell::race::OnceBox;
use root_quantum::Params;
use std::marker::Model;

/// Projectors for one choice of parameters, one cell for each colour from 2 to `top`. Threads share it by `&`:
/// each cell is set once, by the thread that is first with its projector, and is read from then on.
///
/// Contracts see a table as its parameters, its top and the names of its cells. What the cells hold they see
/// by `Notes`.
#[derive(Drop)]
pub struct Table {
    pub(crate) params: Params,
    pub(crate) top: u32,
    pub(crate) cells: Vec<OnceBox<Projector>>,
}

impl Model for Table {
    ghost use Rattle.std.specs.Prelude.{length, map};
    ghost use Rattle.once_cell.specs.Once.{cell_name};
    ghost use Rattle.wenzl_table.specs.Tables;
    ghost use Rattle.std.specs.Coded.{codes};
    ghost use Rattle.root_quantum.specs.Parameters.{parameters_code};

    ghost Value = { Tables.Table };

    ghost coded = { Prim.hlevel (codes, parameters_code) };

    ghost view = { λ table. record { params = table.params; top = table.top; cells = map cell_name table.cells.items } };

    ghost invariant = { λ table. Tables.IsTable table.params table.top (length table.cells.items) };
}
