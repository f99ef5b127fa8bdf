//! The sum over all colourings.

ghost use Rattle.std.specs.Prelude.{◌≡◌, ◌⊎◌, ◌-◌, ◌^◌, ◌<◌, ◌≤◌, length, filter, None, Some, IfOk, IfErr, OnOk};
ghost use Rattle.wenzl_table.specs.Tables.{IsOf, Keeps};
ghost use Rattle.tetra_reader.specs.Tetras.{faces_of};
ghost use Rattle.tetra_sum.specs.Colourings.{are_allowed};
ghost use Rattle.tetra_sum.specs.Lists.{lists};
ghost use Rattle.tetra_sum.specs.Ready.{HasProjectors};
ghost use Rattle.tetra_sum.specs.Refusals.{refusal, walk_refusal};
ghost use Rattle.tetra_sum.specs.Sums.{text_labels, colourings, weight_sum};

use crate::checks::check;
use crate::colourings::allowed;
use crate::fault::TetraFault;
use crate::labels::text_labels;
use crate::number::number_of;
use crate::products::Colouring;
use crate::stores::Stores;
use crate::weight::weight;
use std::alloc::Global;
use tetra_reader::Tetra;
use wenzl_table::{Notes, Table};

/// The sum of the weights of the admissible colourings, in their order. The notes are the table's.
fn walk(
    alloc: Global,
    table: &Table,
    tetra: &Tetra,
    labels: &[u32],
    list: &[Vec<u32>],
    notes: &mut Notes,
) -> Result<u64, TetraFault>
    requires top { table.now.params.level - 2 ≤ table.now.top }
    requires of { IsOf notes.old table.now }
    requires labels { labels.now ≡ text_labels tetra.now }
    requires list { lists list.now ≡ filter (λ colours. are_allowed table.now.params.level (text_labels tetra.now) colours (faces_of tetra.now)) (colourings table.now.params tetra.now) }
    requires few { (table.now.params.level - 1) ^ length (text_labels tetra.now) ≤ 65536 }
    requires projectors { HasProjectors table.now.params tetra.now }
    ensures sum { IfOk result (λ sum. sum ≡ weight_sum table.now.params tetra.now) }
    ensures below { IfOk result (λ sum. sum < table.now.params.modulus) }
    ensures none { OnOk result (walk_refusal table.now.params tetra.now ≡ None) }
    ensures refused { IfErr result (λ fault. (fault ≡ TetraFault.Memory) ⊎ (walk_refusal table.now.params tetra.now ≡ Some fault)) }
    ensures of { IsOf notes.new table.now }
    ensures kept { Keeps notes.old notes.new }
{
    let params = table.params();
    let mut stores = Stores::new(alloc)?;
    let mut sum = 0;
    for colours in list {
        let number = number_of(params.level(), colours);
        let colouring = Colouring {
            number,
            labels,
            colours,
        };
        match weight(alloc, table, tetra, &colouring, &mut stores, notes) {
            Ok(weight) => sum = params.ring().add(sum, weight),
            Err(fault) => return Err(fault),
        }
    }
    Ok(sum)
}

/// The sum over coloured tetrahedra (this project's own, after Turaev and Viro): over all colourings of the labels by 0 to r-2 that
/// each face allows, the product of the `Delta` of the colours, the values of the tetrahedra and the inverses of the theta of the
/// faces. A face allows colours that make an admissible vertex and add up to at most 2r-4. There is no normalisation for vertices.
///
/// Labels are coloured one by one, and a colouring of the first labels is left as soon as a face that is wholly coloured forbids it.
/// Each net is summed once for each colours that occur, its nodes in the listed order. The table's top is at least r-2, and the
/// notes are the table's. Time grows fast with r; the program asks for r up to 6.
///
/// The refusals are those of `TetraFault`, in this order. `TooMany` comes exactly where r-1 to the number of labels is past 65,536,
/// and then `NoInverse` exactly where there is a label and one of `Delta_1` to `Delta_(r-3)` shares a factor with m. Then the first of
/// the others that a walk of the admissible colourings meets stands, in each first at the faces and then at the tetrahedra: `Wide`
/// and `Table` exactly where the net at that place meets that limit, `Theta` exactly where the face's theta shares a factor with m.
pub fn tetra_sum(
    alloc: Global,
    table: &Table,
    tetra: &Tetra,
    notes: &mut Notes,
) -> Result<u64, TetraFault>
    requires top { table.now.params.level - 2 ≤ table.now.top }
    requires of { IsOf notes.old table.now }

    // The sum of the weights over all colourings, whatever was cut.
    ensures sum { IfOk result (λ sum. sum ≡ weight_sum table.now.params tetra.now) }
    ensures below { IfOk result (λ sum. sum < table.now.params.modulus) }

    // A refusal is the definition's, or memory runs out; and where there is a sum there is no refusal.
    ensures unrefused { OnOk result (refusal table.now.params tetra.now ≡ None) }
    ensures refused { IfErr result (λ fault. (fault ≡ TetraFault.Memory) ⊎ (refusal table.now.params tetra.now ≡ Some fault)) }

    // After every answer the notes are the table's, and know what they knew.
    ensures of { IsOf notes.new table.now }
    ensures kept { Keeps notes.old notes.new }
{
    let params = table.params();
    let labels = text_labels(alloc, tetra)?;
    if let Err(fault) = check(params, labels.len() as u32) {
        return Err(fault);
    }
    let list = allowed(alloc, params.level(), &labels, tetra.faces())?;
    walk(alloc, table, tetra, &labels, &list, notes)
}
