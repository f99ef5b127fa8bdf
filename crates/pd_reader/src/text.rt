//! The texts of diagrams and nets.

ghost use Rattle.std.specs.Prelude.{◌≡◌, ◌≤◌, None, length, IfOk, IfErr, List, [], ◌∷◌, codes, refl};
ghost use Rattle.text_shapes.specs.Tokens.{number_tokens};
ghost use Rattle.text_shapes.specs.Shapes.{call, AreOf};
ghost use Rattle.text_shapes.specs.Readers.{Found, Missed, OtherHeadsStop};
ghost use Rattle.pd_reader.specs.Items.{item_labels, net_item_labels};
ghost use Rattle.pd_reader.specs.Diagrams.{refusal};
ghost use Rattle.pd_reader.specs.Texts.{IsOfKind, IsTextItem, item_tokens, IsTextNetItem, net_item_tokens, IsPdText, IsNetText};
ghost use Rattle.pd_reader.specs.Faults.{IsNamed, cause};
ghost use Rattle.pd_reader.specs.Answers.{Answers};
ghost use Rattle.pd_reader.specs.Refusals.{IsPdRefusal, IsNetRefusal};
ghost use Rattle.pd_reader.specs.declared.item.Item.{Item};
ghost use Rattle.pd_reader.specs.declared.item.NetItem.{NetItem};

use crate::call::read_call;
use crate::diagram::{Diagram, NetDiagram};
use crate::fault::{Stop, TextFault, place_at};
use crate::item::{Item, NetItem};
use crate::list::{TextItem, read_text};
use std::alloc::Global;

/// Reads `Loop[n]`, and says where the call ends, or how far the bytes go on as one.
fn read_loop(bytes: &[u8], at: usize) -> Result<(u32, usize), usize>
    requires { at ≤ length bytes.now }
    ensures ok { IfOk result (λ found. Found (AreOf IsOfKind (0 ∷ [])) (call number_tokens (codes "Loop")) bytes.now at (found.0 ∷ []) found.1) }
    ensures err { IfErr result (λ p. Missed (AreOf IsOfKind (0 ∷ [])) (call number_tokens (codes "Loop")) bytes.now at p) }
    ensures others { IfOk result (λ found. OtherHeadsStop number_tokens bytes.now at (codes "Loop") found.1) }
{
    let mut label = [0; 1];
    let next = read_call(bytes, at, b"Loop", &mut label)?;
    Ok((label[0], next))
}

impl TextItem for Item {
    ghost fits = { IsTextItem };

    ghost tokens = { item_tokens };

    ghost begins_unclosed = { elim [ Item.X slots ↦ λ _. refl | Item.Loop label ↦ λ _. refl ] };

    fn read(bytes: &[u8], at: usize) -> Result<(Item, usize), usize> {
        let mut slots = [0; 4];
        let p = match read_call(bytes, at, b"X", &mut slots) {
            Ok(next) => return Ok((Item::X(slots), next)),
            Err(p) => p,
        };
        let q = match read_loop(bytes, at) {
            Ok((label, next)) => return Ok((Item::Loop(label), next)),
            Err(q) => q,
        };
        Err(p.max(q))
    }
}

impl TextItem for NetItem {
    ghost fits = { IsTextNetItem };

    ghost tokens = { net_item_tokens };

    ghost begins_unclosed = { elim [ NetItem.X slots ↦ λ _. refl | NetItem.Y edges ↦ λ _. refl | NetItem.Loop label ↦ λ _. refl ] };

    fn read(bytes: &[u8], at: usize) -> Result<(NetItem, usize), usize> {
        let mut slots = [0; 4];
        let p = match read_call(bytes, at, b"X", &mut slots) {
            Ok(next) => return Ok((NetItem::X(slots), next)),
            Err(p) => p,
        };
        let mut edges = [0; 3];
        let q = match read_call(bytes, at, b"Y", &mut edges) {
            Ok(next) => return Ok((NetItem::Y(edges), next)),
            Err(q) => q,
        };
        let r = match read_loop(bytes, at) {
            Ok((label, next)) => return Ok((NetItem::Loop(label), next)),
            Err(r) => r,
        };
        Err(p.max(q).max(r))
    }
}

/// The diagram that the bytes spell: `PD[item,..,item]` with any number of items `X[n,n,n,n]` and
/// `Loop[n]`, which are KnotTheory's. A number is one to six decimal digits, the first not 0. White space
/// may stand anywhere but inside a token.
///
/// Where the bytes are no such text, let p be the length of their longest beginning that also begins one.
/// The refusal stands at byte p, from 0: `Head` where a letter stands there, `Number` where a digit does,
/// and `Text` where another byte does or the input ends. `TooMany` holds 256 and comes past 256 items.
/// `Label` holds the least label that doesn't stand twice, and how often it stands. `Memory` is want of
/// memory.
pub fn read_pd(alloc: Global, bytes: &[u8]) -> Result<Diagram, TextFault>
    // What is read is what the text spells.
    ensures read { IfOk result (λ diagram. IsPdText bytes.now diagram) }
    // A text is read, or its items are refused for the first reason against them, or memory runs out.
    ensures text { (items : List Item) → IsPdText bytes.now items → Answers cause (refusal item_labels items) items result }
    // A refusal that names a place stands where the bytes stop being the beginning of a text, and any
    // other but want of memory is of a text's items.
    ensures refused { IfErr result (λ fault. IsPdRefusal bytes.now fault) }
    // It is named by the byte there.
    ensures named { IfErr result (λ fault. IsNamed bytes.now (cause fault)) }
{
    match read_text(alloc, bytes, b"PD") {
        Ok(items) => Ok(Diagram::new(alloc, &items)?),
        Err(Stop::At(at)) => Err(TextFault::from(place_at(bytes, at))),
        Err(Stop::Memory) => Err(TextFault::Memory),
    }
}

/// The net that the bytes spell: `Net[item,..,item]` with items `X[n,n,n,n]` and `Loop[n]` as in a
/// diagram and `Y[n,n,n]`, a vertex with its edges counterclockwise (this project's own).
///
/// The refusals are those of `read_pd`.
pub fn read_net(alloc: Global, bytes: &[u8]) -> Result<NetDiagram, TextFault>
    // What is read is what the text spells.
    ensures read { IfOk result (λ net. IsNetText bytes.now net) }
    // A text is read, or its items are refused for the first reason against them, or memory runs out.
    ensures text { (items : List NetItem) → IsNetText bytes.now items → Answers cause (refusal net_item_labels items) items result }
    // A refusal that names a place stands where the bytes stop being the beginning of a text, and any
    // other but want of memory is of a text's items.
    ensures refused { IfErr result (λ fault. IsNetRefusal bytes.now fault) }
    // It is named by the byte there.
    ensures named { IfErr result (λ fault. IsNamed bytes.now (cause fault)) }
{
    match read_text(alloc, bytes, b"Net") {
        Ok(items) => Ok(NetDiagram::new(alloc, &items)?),
        Err(Stop::At(at)) => Err(TextFault::from(place_at(bytes, at))),
        Err(Stop::Memory) => Err(TextFault::Memory),
    }
}
