//! Steps of a script.

ghost use Rattle.std.specs.Prelude.{◌≡◌, ◌≤◌, [], ◌∷◌, length, IfOk, IfErr, codes};
ghost use Rattle.text_shapes.specs.Reach.{IsWord};
ghost use Rattle.text_shapes.specs.Readers.{Found, Missed, OtherHeadsStop};
ghost use Rattle.text_shapes.specs.Shapes.{AreOf, call};
ghost use Rattle.script_reader.specs.Steps.{is_slide};
ghost use Rattle.script_reader.specs.StepTexts.{IsArgumentOf, IsTextStep, IsStepOf, argument_tokens, step_tokens, pair_slots};

use crate::argument::StepArgument;
use pd_reader::{TextItem, read_call};
use planar_check::Sign;

/// A step of a script: one of Reidemeister's moves, a blow-up or a handle slide (Lickorish, ch. 3 and 12; the names
/// are this project's own). Edges are named by their labels, crossings by their numbers, from 1 in the order of the items.
#[derive(Clone, Copy, Debug, PartialEq, Eq)]
pub enum Step {
    /// Pushes the edge `over` over the edge `under`, in a face that both border.
    R2 { over: u32, under: u32 },
    /// Takes two crossings apart at the corners of a face of two places, one of whose edges is over at both.
    R2Undo { first: u32, second: u32 },
    /// Moves a strand past the crossing of two others, through a face of three places.
    R3 { first: u32, second: u32, third: u32 },
    /// Gives the edge a curl.
    Curl { edge: u32, sign: Sign },
    /// Takes a curl away.
    CurlUndo { crossing: u32 },
    /// Adds a closed curve without crossings, whose framing is +1 or -1.
    BlowUp { sign: Sign },
    /// Slides the component of `edge` over that of `along`, by a band in a face that both border.
    Slide { edge: u32, along: u32 },
}

impl Step {
    /// Whether the step is a handle slide; each other step is a move of a diagram, with or without framings.
    pub fn is_slide(&self) -> bool
        ensures { result ≡ is_slide self.now }
    {
        matches!(self, Step::Slide { edge: _, along: _ })
    }
}

const NUMBER: StepArgument = StepArgument::Number(1);

const SIGN: StepArgument = StepArgument::Sign(Sign::Plus);

/// Reads `head[n,n]`, and says which two numbers stand there and where the call ends, or how far the bytes go on as
/// one.
fn read_pair(bytes: &[u8], at: usize, head: &[u8]) -> Result<(u32, u32, usize), usize>
    requires within { at ≤ length bytes.now }
    requires word { IsWord head.now }
    ensures ok { IfOk result (λ found. Found (AreOf IsArgumentOf pair_slots) (call argument_tokens head.now) bytes.now at (StepArgument.Number found.0 ∷ StepArgument.Number found.1 ∷ []) found.2) }
    ensures err { IfErr result (λ p. Missed (AreOf IsArgumentOf pair_slots) (call argument_tokens head.now) bytes.now at p) }
    ensures others { IfOk result (λ found. OtherHeadsStop argument_tokens bytes.now at head.now found.2) }
{
    let mut slots = [NUMBER, NUMBER];
    let next = read_call(bytes, at, head, &mut slots)?;
    let first = slots[0].number();
    let second = slots[1].number();
    Ok((first, second, next))
}

fn read_r2(bytes: &[u8], at: usize) -> Result<(Step, usize), usize>
    requires { at ≤ length bytes.now }
    ensures ok { IfOk result (λ found. Found IsTextStep step_tokens bytes.now at found.0 found.1) }
    ensures err { IfErr result (λ p. Missed (IsStepOf (codes "R2")) step_tokens bytes.now at p) }
{
    let (over, under, next) = read_pair(bytes, at, b"R2")?;
    Ok((Step::R2 { over, under }, next))
}

fn read_r2_undo(bytes: &[u8], at: usize) -> Result<(Step, usize), usize>
    requires { at ≤ length bytes.now }
    ensures ok { IfOk result (λ found. Found IsTextStep step_tokens bytes.now at found.0 found.1) }
    ensures err { IfErr result (λ p. Missed (IsStepOf (codes "R2Undo")) step_tokens bytes.now at p) }
{
    let (first, second, next) = read_pair(bytes, at, b"R2Undo")?;
    Ok((Step::R2Undo { first, second }, next))
}

fn read_r3(bytes: &[u8], at: usize) -> Result<(Step, usize), usize>
    requires { at ≤ length bytes.now }
    ensures ok { IfOk result (λ found. Found IsTextStep step_tokens bytes.now at found.0 found.1) }
    ensures err { IfErr result (λ p. Missed (IsStepOf (codes "R3")) step_tokens bytes.now at p) }
{
    let mut slots = [NUMBER, NUMBER, NUMBER];
    let next = read_call(bytes, at, b"R3", &mut slots)?;
    let first = slots[0].number();
    let second = slots[1].number();
    let third = slots[2].number();
    Ok((
        Step::R3 {
            first,
            second,
            third,
        },
        next,
    ))
}

fn read_curl(bytes: &[u8], at: usize) -> Result<(Step, usize), usize>
    requires { at ≤ length bytes.now }
    ensures ok { IfOk result (λ found. Found IsTextStep step_tokens bytes.now at found.0 found.1) }
    ensures err { IfErr result (λ p. Missed (IsStepOf (codes "Curl")) step_tokens bytes.now at p) }
{
    let mut slots = [NUMBER, SIGN];
    let next = read_call(bytes, at, b"Curl", &mut slots)?;
    let edge = slots[0].number();
    let sign = slots[1].sign();
    Ok((Step::Curl { edge, sign }, next))
}

fn read_curl_undo(bytes: &[u8], at: usize) -> Result<(Step, usize), usize>
    requires { at ≤ length bytes.now }
    ensures ok { IfOk result (λ found. Found IsTextStep step_tokens bytes.now at found.0 found.1) }
    ensures err { IfErr result (λ p. Missed (IsStepOf (codes "CurlUndo")) step_tokens bytes.now at p) }
{
    let mut slots = [NUMBER];
    let next = read_call(bytes, at, b"CurlUndo", &mut slots)?;
    let crossing = slots[0].number();
    Ok((Step::CurlUndo { crossing }, next))
}

fn read_blow_up(bytes: &[u8], at: usize) -> Result<(Step, usize), usize>
    requires { at ≤ length bytes.now }
    ensures ok { IfOk result (λ found. Found IsTextStep step_tokens bytes.now at found.0 found.1) }
    ensures err { IfErr result (λ p. Missed (IsStepOf (codes "BlowUp")) step_tokens bytes.now at p) }
{
    let mut slots = [SIGN];
    let next = read_call(bytes, at, b"BlowUp", &mut slots)?;
    let sign = slots[0].sign();
    Ok((Step::BlowUp { sign }, next))
}

fn read_slide(bytes: &[u8], at: usize) -> Result<(Step, usize), usize>
    requires { at ≤ length bytes.now }
    ensures ok { IfOk result (λ found. Found IsTextStep step_tokens bytes.now at found.0 found.1) }
    ensures err { IfErr result (λ p. Missed (IsStepOf (codes "Slide")) step_tokens bytes.now at p) }
{
    let (edge, along, next) = read_pair(bytes, at, b"Slide")?;
    Ok((Step::Slide { edge, along }, next))
}

impl TextItem for Step {
    ghost fits = { IsTextStep };

    ghost tokens = { step_tokens };

    ghost use Rattle.script_reader.specs.StepTexts.{step_begins_unclosed};

    ghost begins_unclosed = { step_begins_unclosed };

    /// Each head is tried in turn, and the farthest place counts.
    fn read(bytes: &[u8], at: usize) -> Result<(Step, usize), usize> {
        let r2 = match read_r2(bytes, at) {
            Ok(found) => return Ok(found),
            Err(p) => p,
        };
        let r2_undo = match read_r2_undo(bytes, at) {
            Ok(found) => return Ok(found),
            Err(p) => p,
        };
        let r3 = match read_r3(bytes, at) {
            Ok(found) => return Ok(found),
            Err(p) => p,
        };
        let curl = match read_curl(bytes, at) {
            Ok(found) => return Ok(found),
            Err(p) => p,
        };
        let curl_undo = match read_curl_undo(bytes, at) {
            Ok(found) => return Ok(found),
            Err(p) => p,
        };
        let blow_up = match read_blow_up(bytes, at) {
            Ok(found) => return Ok(found),
            Err(p) => p,
        };
        let slide = match read_slide(bytes, at) {
            Ok(found) => return Ok(found),
            Err(p) => p,
        };
        Err(
            r2.max(r2_undo)
                .max(r3)
                .max(curl)
                .max(curl_undo)
                .max(blow_up)
                .max(slide),
        )
    }
}
