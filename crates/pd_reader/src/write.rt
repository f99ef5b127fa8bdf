//! The canonical spelling of a diagram.

ghost use Rattle.std.specs.Prelude.{◌≡◌, ◌++◌, IfOk, OnOk};
ghost use Rattle.std.specs.List.{concat};
ghost use Rattle.text_shapes.specs.Shapes.{items_behind};
ghost use Rattle.pd_reader.specs.Texts.{item_tokens, written};

use crate::diagram::Diagram;
use crate::item::Item;
use std::alloc::{AllocError, Global};

/// Writes `,item,..,item]` behind the text.
fn write_behind(alloc: Global, text: &mut Vec<u8>, items: &[Item]) -> Result<(), AllocError>
    ensures { OnOk result (text.new.items ≡ text.old.items ++ concat (items_behind 93 item_tokens items.now)) }
{
    for item in items {
        text.push(b',')?;
        text.extend_from_slice(item.to_string(alloc)?.as_bytes())?;
    }
    text.push(b']')?;
    Ok(())
}

/// The canonical spelling of the diagram: its tokens with no white space between them, so that no number
/// has a leading zero. Where each label is at most 999,999, `read_pd` reads it as the same diagram, or
/// memory runs out; a label past that has a seventh digit, which no text has.
pub fn write_pd(alloc: Global, diagram: &Diagram) -> Result<Vec<u8>, AllocError>
    ensures { IfOk result (λ text. text.items ≡ written diagram.now) }
{
    let mut text = Vec::from_slice(alloc, b"PD[")?;
    match diagram.items() {
        [] => {
            text.push(b']')?;
            Ok(text)
        }
        [first, rest @ ..] => {
            text.extend_from_slice(first.to_string(alloc)?.as_bytes())?;
            write_behind(alloc, &mut text, rest)?;
            Ok(text)
        }
    }
}
