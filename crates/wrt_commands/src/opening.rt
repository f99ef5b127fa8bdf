//! What words come to before the input is read.

ghost use Rattle.std.specs.Prelude.{◌≡◌, ◌≢◌, true, Err, IfOk, map};
ghost use Rattle.wrt_parts.specs.Texts.{texts_of};
ghost use Rattle.wrt_request.specs.Requests.{IsInRange};
ghost use Rattle.wrt_words.specs.Words.{command_line, takes_line};
ghost use Rattle.wrt_commands.specs.Openings.{form_of, is_past_level, opening, with_request, with_texts};
ghost use Rattle.wrt_commands.specs.Stops.{Answers, Is};
ghost use Rattle.wrt_commands.specs.declared.refusal.Refusal.TheVariants as refusals;
ghost use Rattle.wrt_commands.specs.declared.stop.Stop.TheVariants as stops;
ghost use Rattle.wrt_commands.specs.declared.words_refusal.WordsRefusal.TheVariants as words_refusals;

use crate::parameters::read_parameters;
use crate::parameters_refusal::ParametersRefusal;
use crate::refusal::Refusal;
use crate::stop::Stop;
use crate::words_refusal::WordsRefusal;
use root_quantum::{Form, Params};
use std::alloc::Global;
use wrt_parts::Parts;
use wrt_request::{PartsFault, Request, Task, read_request};
use wrt_words::{WordsFault, command_line, read_words};

/// Parameters, and what is asked for at them.
#[derive(Drop)]
pub(crate) struct Opened {
    pub(crate) params: Params,
    pub(crate) task: Task,
}

/// The form of the parameters: the even one for even colours alone.
fn form_of(task: &Task) -> Form
    ensures { result ≡ form_of task.now }
{
    match task {
        Task::Wrt { even: true, .. } => Form::Even,
        _ => Form::All,
    }
}

/// Whether R is past the task's own limit: 6 for a sum over tetrahedra.
fn is_past_level(task: &Task, level: u32) -> bool
    ensures { result ≡ is_past_level task.now level }
{
    match task {
        Task::Tetrahedra => level > 6,
        _ => false,
    }
}

/// The task of a request, at its parameters.
fn open_request(request: Request) -> Result<Opened, Refusal>
    requires { IsInRange request.task }
    ensures answer { result ≡ with_request request }
    ensures in_range { IfOk result (λ opened. IsInRange opened.task) }
{
    let Request { task, numbers } = request;
    let params = match read_parameters(&numbers, form_of(&task)) {
        Ok(params) => params,
        Err(refusal) => return Err(Refusal::Parameters(refusal)),
    };
    if is_past_level(&task, params.level()) {
        return Err(Refusal::Parameters(ParametersRefusal::TetraLevel));
    }
    Ok(Opened { params, task })
}

/// What the parts ask for, at its parameters.
fn open_parts(alloc: Global, parts: &Parts) -> Result<Opened, Stop>
    ensures answer { Answers (Is (with_texts (texts_of parts.now))) (λ opened. opened) result }
    ensures in_range { IfOk result (λ opened. IsInRange opened.task) }
    ensures taken { result ≢ Err (stops.Refused (refusals.Words words_refusals.NoCommandLine)) }
{
    match read_request(alloc, parts) {
        Ok(request) => Ok(open_request(request)?),
        Err(PartsFault::Refused(refusal)) => Err(Stop::Refused(Refusal::Words(WordsRefusal::Parts(
            refusal,
        )))),
        Err(PartsFault::Memory) => Err(Stop::Memory),
    }
}

/// What the words behind the program's name ask for, at its parameters.
pub(crate) fn open_words(alloc: Global, words: &[&str]) -> Result<Opened, Stop>
    ensures answer { Answers (Is (opening (map (λ s. s.now) words.now))) (λ opened. opened) result }
    ensures in_range { IfOk result (λ opened. IsInRange opened.task) }
    ensures taken { takes_line (command_line (map (λ s. s.now) words.now)) ≡ true → result ≢ Err (stops.Refused (refusals.Words words_refusals.NoCommandLine)) }
{
    let line = command_line(alloc, words)?;
    match read_words(alloc, &line) {
        Ok(parts) => open_parts(alloc, &parts),
        Err(WordsFault::Refused) => Err(Stop::Refused(Refusal::Words(WordsRefusal::NoCommandLine))),
        Err(WordsFault::Memory) => Err(Stop::Memory),
    }
}
