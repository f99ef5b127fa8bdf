//! The texts of tetrahedra.

ghost use Rattle.std.specs.Prelude.{◌≡◌, None, IfOk, IfErr, List, refl};
ghost use Rattle.text_shapes.specs.Readers.{Found, Missed};
ghost use Rattle.pd_reader.specs.Answers.{Answers};
ghost use Rattle.pd_reader.specs.Faults.{IsNamed};
ghost use Rattle.tetra_reader.specs.Tetras.{IsTextTetraItem, tetra_item_tokens, IsTetraText, refusal};
ghost use Rattle.tetra_reader.specs.Faults.{cause, IsTetraRefusal};
ghost use Rattle.tetra_reader.specs.declared.item.TetraItem.{TetraItem};

use crate::fault::TetraText;
use crate::item::TetraItem;
use crate::tetra::Tetra;
use pd_reader::{Stop, TextItem, place_at, read_call, read_text};
use std::alloc::Global;

impl TextItem for TetraItem {
    ghost fits = { IsTextTetraItem };

    ghost tokens = { tetra_item_tokens };

    ghost begins_unclosed = { elim [ TetraItem.F labels ↦ λ _. refl | TetraItem.T labels ↦ λ _. refl ] };

    fn read(bytes: &[u8], at: usize) -> Result<(TetraItem, usize), usize> {
        let mut face = [0; 3];
        let p = match read_call(bytes, at, b"F", &mut face) {
            Ok(next) => return Ok((TetraItem::F(face), next)),
            Err(p) => p,
        };
        let mut tetrahedron = [0; 6];
        let q = match read_call(bytes, at, b"T", &mut tetrahedron) {
            Ok(next) => return Ok((TetraItem::T(tetrahedron), next)),
            Err(q) => q,
        };
        Err(p.max(q))
    }
}

/// The tetrahedra that the bytes spell: `TV[item,..,item]` with any number of faces `F[n,n,n]` and tetrahedra
/// `T[n,n,n,n,n,n]` (this project's own). A number is one to six decimal digits, the first not 0. White space
/// may stand anywhere but inside a token.
///
/// Where the bytes are no such text, let p be the length of their longest beginning that also begins one.
/// The refusal stands at byte p, from 0: `Head` where a letter stands there, `Number` where a digit does,
/// and `Text` where another byte does or the input ends. Then `TooMany` comes past 256 items and holds 256, and
/// `Face` holds the first tetrahedron, from 1 among the tetrahedra, with a face that is not listed: one of abc,
/// aef, bfd and cde of `T[a,b,c,d,e,f]`, in no order of its labels. `Memory` is want of memory.
pub fn read_tetra(alloc: Global, bytes: &[u8]) -> Result<Tetra, TetraText>
    // What is read is what the text spells.
    ensures read { IfOk result (λ tetra. IsTetraText bytes.now tetra) }
    // A text is read, or its items are refused for the first reason against them, or memory runs out.
    ensures text { (items : List TetraItem) → IsTetraText bytes.now items → Answers cause (refusal items) items result }
    // A refusal that names a place stands where the bytes stop being the beginning of a text, and any
    // other but want of memory is of a text's items.
    ensures refused { IfErr result (λ fault. IsTetraRefusal bytes.now fault) }
    // It is named by the byte there.
    ensures named { IfErr result (λ fault. IsNamed bytes.now (cause fault)) }
{
    match read_text(alloc, bytes, b"TV") {
        Ok(items) => Tetra::new(alloc, items),
        Err(Stop::At(at)) => Err(TetraText::from(place_at(bytes, at))),
        Err(Stop::Memory) => Err(TetraText::Memory),
    }
}
