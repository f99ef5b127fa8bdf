//! The table of projectors that a Kirby sum needs.

ghost use Rattle.std.specs.Prelude.{◌≡◌, ◌≤◌, IfOk};
ghost use Rattle.root_quantum.specs.Colours.{greatest_colour};

use crate::checks::greatest_colour;
use root_quantum::Params;
use std::alloc::{AllocError, Global};
use wenzl_table::Table;

/// A table for the colours of the form. The only error is want of memory.
pub fn table_for(alloc: Global, params: &Params) -> Result<Table, AllocError>
    ensures params { IfOk result (λ table. table.params ≡ params.now) }
    ensures top { IfOk result (λ table. greatest_colour table.params ≤ table.top) }
{
    Table::new(alloc, *params, greatest_colour(params))
}
