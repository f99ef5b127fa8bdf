//! Requests.

ghost use Rattle.std.specs.Prelude.{◌≡◌, ◌+◌, ◌≤◌, length, IfOk};
ghost use Rattle.wrt_parts.specs.Texts.{texts_of};
ghost use Rattle.wrt_request.specs.Commands.{row_of};
ghost use Rattle.wrt_request.specs.Requests.{IsInRange, arguments_of, listed, request_of, rest_of, diagram_values, shared_numbers, sweep_of, task_of};
ghost use Rattle.wrt_request.specs.Stages.{Reads};

use crate::colours::read_colours;
use crate::command::Command;
use crate::fault::{PartsFault, PartsRefusal};
use crate::framing::{FramingList, read_framings};
use crate::list::{NumberList, ValueList};
use crate::number::read_numbers;
use crate::order::{OrderWord, read_order};
use crate::workers::read_workers;
use std::alloc::Global;
use wrt_parts::Parts;

/// The numbers M, A and R of a command, as they were written. They needn't be parameters.
#[derive(Clone, Copy, Debug, PartialEq, Eq)]
pub struct Numbers {
    /// M, the modulus.
    pub modulus: u64,
    /// A.
    pub root: u64,
    /// R, the level.
    pub level: u64,
}

/// The options of a sweep.
#[derive(Drop, Debug)]
pub struct Sweep {
    /// The order in which crossings are taken.
    pub order: OrderWord,
    /// Whether the turns are reported too.
    pub turns: bool,
}

/// The values of the options. Orders and workers that aren't given have their values for that.
#[derive(Drop)]
pub(crate) struct Arguments {
    /// The colours, where the option is given.
    pub(crate) colours: Option<NumberList>,
    /// The framings, where the option is given.
    pub(crate) framings: Option<FramingList>,
    /// The options of a sweep.
    pub(crate) sweep: Sweep,
    /// How many workers share a sum: 1 to 64.
    pub(crate) workers: u32,
    /// Whether only even colours are summed.
    pub(crate) even: bool,
}

/// Which values of a script's diagrams are asked for. That a list fits the components of the first diagram isn't known yet.
#[derive(Drop, Debug)]
pub enum DiagramValues {
    /// Without an option: the brackets.
    Brackets,
    /// With `--colors`: the coloured values, the components of the first diagram having these colours.
    Coloured(NumberList),
    /// With `--framing`: the surgery values, the components of the first diagram having these framings.
    Surgery(FramingList),
}

/// What is asked for at M, A and R, with its own arguments.
#[derive(Drop, Debug)]
pub enum Task {
    /// `bracket M A R`: the bracket of the diagram on the input.
    Bracket {
        sweep: Sweep,
    },
    /// `colored M A R`: the value of the diagram on the input, whose components have these colours. That they fit it
    /// isn't known yet.
    Colored {
        colours: NumberList,
        sweep: Sweep,
    },
    /// `net M A R`: the value of the net on the input, whose labels have these colours. That they fit it isn't known
    /// yet.
    Net {
        colours: NumberList,
        sweep: Sweep,
    },
    /// `torus N M A R`: the bracket of the closed braid on two strands with N positive crossings, 1 to 256.
    Torus {
        crossings: u32,
        sweep: Sweep,
    },
    /// `wrt M A R`: the surgery value of the diagram on the input, whose components have these framings, where the option is
    /// given. That they fit it isn't known yet. As many workers, 1 to 64, share the sum; `even` sums even colours alone.
    Wrt {
        framings: Option<FramingList>,
        workers: u32,
        even: bool,
        sweep: Sweep,
    },
    /// `moves M A R`: these values of the diagrams of the script on the input, its first one and what each step gives.
    Moves {
        values: DiagramValues,
    },
    /// `braid M A R`: the bracket of the closure of the braid on the input.
    Braid,
    /// `tv M A R`: the sum over the coloured tetrahedra on the input.
    Tetrahedra,
}

/// What the words ask for.
#[derive(Drop, Debug)]
pub struct Request {
    /// What is asked for.
    pub task: Task,
    /// M, A and R.
    pub numbers: Numbers,
}

/// The options of a sweep: an order that isn't given is `listed`.
fn read_sweep(alloc: Global, parts: &Parts) -> Result<Sweep, PartsFault>
    ensures { Reads (λ sweep. sweep) (sweep_of (texts_of parts.now)) result }
{
    let order = read_order(alloc, parts.order)?;
    Ok(Sweep {
        order,
        turns: parts.turns,
    })
}

/// The values of the options, in the one order in which they are read.
fn read_arguments(alloc: Global, parts: &Parts) -> Result<Arguments, PartsFault>
    ensures value { Reads (λ arguments. arguments) (arguments_of (texts_of parts.now)) result }
    ensures workers { IfOk result (λ arguments. (1 ≤ arguments.workers) × (arguments.workers ≤ 64)) }
{
    let colours = read_colours(alloc, parts.colors)?;
    let framings = read_framings(alloc, parts.framing)?;
    let sweep = read_sweep(alloc, parts)?;
    let workers = read_workers(parts.workers)?;
    Ok(Arguments {
        colours,
        framings,
        sweep,
        workers,
        even: parts.even,
    })
}

/// The list that is given, or else the empty one.
fn listed(alloc: Global, list: Option<NumberList>) -> NumberList
    ensures { result ≡ listed list }
{
    match list {
        Some(list) => list,
        None => ValueList::of(Vec::new(alloc)),
    }
}

/// The values that `moves` asks for: it takes one of both lists.
fn diagram_values(
    colours: Option<NumberList>,
    framings: Option<FramingList>,
) -> Result<DiagramValues, PartsRefusal>
    ensures { result ≡ diagram_values colours framings }
{
    match (colours, framings) {
        (None, None) => Ok(DiagramValues::Brackets),
        (Some(colours), None) => Ok(DiagramValues::Coloured(colours)),
        (None, Some(framings)) => Ok(DiagramValues::Surgery(framings)),
        (Some(_), Some(_)) => Err(PartsRefusal::ColorsAndFraming),
    }
}

/// What the command asks for with its own numbers and the values of its options.
fn read_task(
    alloc: Global,
    command: Command,
    numbers: &[u64],
    arguments: Arguments,
) -> Result<Task, PartsRefusal>
    requires numbers { length numbers.now ≡ (row_of command).own_numbers + 3 }
    requires workers { (1 ≤ arguments.workers) × (arguments.workers ≤ 64) }
    ensures value { result ≡ task_of command numbers.now arguments }
    ensures in_range { IfOk result (λ task. IsInRange task) }
{
    let Arguments {
        colours,
        framings,
        sweep,
        workers,
        even,
    } = arguments;
    match command {
        Command::Bracket => Ok(Task::Bracket { sweep }),
        Command::Colored => Ok(Task::Colored {
            colours: listed(alloc, colours),
            sweep,
        }),
        Command::Net => Ok(Task::Net {
            colours: listed(alloc, colours),
            sweep,
        }),
        Command::Torus => match numbers[0] {
            crossings @ 1..=256 => Ok(Task::Torus {
                crossings: crossings as u32,
                sweep,
            }),
            _ => Err(PartsRefusal::Crossings),
        },
        Command::Wrt => Ok(Task::Wrt {
            framings,
            workers,
            even,
            sweep,
        }),
        Command::Moves => Ok(Task::Moves {
            values: diagram_values(colours, framings)?,
        }),
        Command::Braid => Ok(Task::Braid),
        Command::Tetrahedra => Ok(Task::Tetrahedra),
    }
}

/// M, A and R: the numbers behind the command's own.
fn shared_numbers(command: Command, numbers: &[u64]) -> Numbers
    requires { length numbers.now ≡ (row_of command).own_numbers + 3 }
    ensures { result ≡ shared_numbers (row_of command).own_numbers numbers.now }
{
    let own = command.own_numbers() as usize;
    Numbers {
        modulus: numbers[own],
        root: numbers[own + 1],
        level: numbers[own + 2],
    }
}

/// The request of a command with its numbers, by the options: their values are read in one order for all commands, and
/// the command's own numbers are looked at last.
fn read_rest(
    alloc: Global,
    command: Command,
    numbers: &[u64],
    parts: &Parts,
) -> Result<Request, PartsFault>
    requires { length numbers.now ≡ (row_of command).own_numbers + 3 }
    ensures request { Reads (λ request. request) (rest_of command numbers.now (texts_of parts.now)) result }
    ensures in_range { IfOk result (λ request. IsInRange request.task) }
{
    command.check_options(parts)?;
    let arguments = read_arguments(alloc, parts)?;
    let task = read_task(alloc, command, numbers, arguments)?;
    Ok(Request {
        task,
        numbers: shared_numbers(command, numbers),
    })
}

/// What the parts of a command line ask for, or the first reason against them. `Memory` is want of
/// memory, and may stand in place of any other answer.
pub fn read_request(alloc: Global, parts: &Parts) -> Result<Request, PartsFault>
    // The definition's request or refusal, but for want of memory.
    ensures request { Reads (λ request. request) (request_of (texts_of parts.now)) result }

    // The crossings that are asked for are 1 to 256, and the workers 1 to 64.
    ensures in_range { IfOk result (λ request. IsInRange request.task) }
{
    let command = Command::named(parts.command)?;
    let numbers = read_numbers(alloc, command.own_numbers() + 3, &parts.numbers)?;
    read_rest(alloc, command, &numbers, parts)
}
