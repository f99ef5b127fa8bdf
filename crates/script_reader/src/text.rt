//! The texts of scripts.

ghost use Rattle.std.specs.Prelude.{◌≡◌, IfOk, IfErr, List};
ghost use Rattle.text_shapes.specs.Readers.{Accepts};
ghost use Rattle.pd_reader.specs.Answers.{Answers};
ghost use Rattle.pd_reader.specs.Faults.{IsNamed, cause};
ghost use Rattle.pd_reader.specs.Stops.{StopsAt};
ghost use Rattle.script_reader.specs.ScriptTexts.{ScriptParts, IsTextScript, script_tokens, IsScriptText, IsScriptRefusal, script_refusal};

use crate::script::Script;
use crate::step::Step;
use pd_reader::{Item, Stop, TextFault, finish, mark, place_at, read_behind, read_list, word};
use std::alloc::Global;

/// Reads a text that is all the bytes.
fn read_text(alloc: Global, bytes: &[u8]) -> Result<(Vec<Item>, Vec<Step>), Stop>
    ensures ok { IfOk result (λ found. Accepts IsTextScript script_tokens bytes.now (record { diagram = found.0.items; steps = found.1.items })) }
    ensures err { IfErr result (λ stop. StopsAt IsTextScript script_tokens bytes.now stop) }
{
    let head = word(bytes, 0, b"Moves")?;
    let opened = mark(bytes, head, b'[')?;
    let (items, place) = read_list(alloc, bytes, opened, b"PD")?;
    let mut steps = Vec::new(alloc);
    let end = read_behind(bytes, place, b']', &mut steps)?;
    finish(bytes, end)?;
    Ok((items, steps))
}

/// The script that the bytes spell: `Moves[PD[item,..,item],step,..,step]`, a diagram as `read_pd` reads it and
/// any number of steps `R2[n,n]`, `R2Undo[n,n]`, `R3[n,n,n]`, `Curl[n,s]`, `CurlUndo[n]`, `BlowUp[s]` and
/// `Slide[n,n]`, where a sign s is `+` or `-` (this project's own). White space may stand anywhere but inside a token.
///
/// Where the bytes are no such text, the refusal stands at a byte as `read_pd` says. Then `TooMany` comes past 256
/// items and holds 256, then past 1,000 steps and holds 1000. `Label` holds the least label that doesn't stand
/// twice, and how often it stands. `Memory` is want of memory.
pub fn read_script(alloc: Global, bytes: &[u8]) -> Result<Script, TextFault>
    // What is read is what the text spells.
    ensures read { IfOk result (λ script. IsScriptText bytes.now script) }
    // A text is read, or its script is refused for the first reason against it, or memory runs out.
    ensures text { (script : ScriptParts) → IsScriptText bytes.now script → Answers cause (script_refusal script) script result }
    // A refusal that names a place stands where the bytes stop being the beginning of a text, and any
    // other but want of memory is of a text's script.
    ensures refused { IfErr result (λ fault. IsScriptRefusal bytes.now fault) }
    // It is named by the byte there.
    ensures named { IfErr result (λ fault. IsNamed bytes.now (cause fault)) }
{
    match read_text(alloc, bytes) {
        Ok((items, steps)) => Ok(Script::new(alloc, &items, steps)?),
        Err(Stop::At(at)) => Err(TextFault::from(place_at(bytes, at))),
        Err(Stop::Memory) => Err(TextFault::Memory),
    }
}
