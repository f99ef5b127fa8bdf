//! What a user of a table knows of its cells.

ghost use Rattle.std.specs.Prelude.{◌≡◌, ℕ};
ghost use Rattle.wenzl_table.specs.Tables.{cells_of, known, Agree};
ghost use Rattle.wenzl_table.specs.Marks.{said_of};

use crate::projector::Projector;
use once_cell::race::Note;
use std::marker::Model;

/// For each cell of one table what its holder knows of it: nothing, or the projector that the cell holds for
/// good.
///
/// Contracts see notes as a list of the cells' names, each with what is known.
#[derive(Drop)]
pub struct Notes {
    pub(crate) list: Vec<Note<Projector>>,
}

impl Model for Notes {
    ghost use Rattle.std.specs.Prelude.{map};
    ghost use Rattle.wenzl_table.specs.Tables;
    ghost use Rattle.std.specs.Coded.{codes};
    ghost use Rattle.root_quantum.specs.Parameters.{parameters_code};

    ghost Value = { Tables.Notes };

    ghost coded = { Prim.hlevel (codes, parameters_code) };

    ghost view = { λ notes. map (λ note. (note.cell, note.known)) notes.list.items };
}

impl Notes {
    /// Where both know a cell's projector it is the same one: the caller knows that afterwards, and nothing
    /// else has changed. It takes no memory.
    ///
    /// Both are reached by `&mut`, as a note is, though none is changed.
    pub fn compare(&mut self, other: &mut Notes)
        requires { cells_of self.old ≡ cells_of other.old }
        ensures mine { self.new ≡ self.old }
        ensures others { other.new ≡ other.old }
        ensures same { (n : ℕ) → Agree (known self.old n) (known other.old n) }
    {
        compare_each(&mut self.list, &mut other.list);
    }
}

/// Compares the notes place by place.
fn compare_each(mine: &mut Vec<Note<Projector>>, others: &mut Vec<Note<Projector>>)
    requires { cells_of (said_of mine.old.items) ≡ cells_of (said_of others.old.items) }
    ensures mine { mine.new.items ≡ mine.old.items }
    ensures others { others.new.items ≡ others.old.items }
    ensures same { (n : ℕ) → Agree (known (said_of mine.old.items) n) (known (said_of others.old.items) n) }
{
    for at in 0..mine.len() {
        let theirs = others[at].again();
        mine[at].compare(theirs);
    }
}
