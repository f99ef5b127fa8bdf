//! The order in which crossings are taken, as `--order` says it.

ghost use Rattle.std.specs.Prelude.{option_map};
ghost use Rattle.wrt_request.specs.Orders.{order_of};
ghost use Rattle.wrt_request.specs.Stages.{Reads};

use crate::fault::{PartsFault, PartsRefusal};
use crate::list::{NumberList, read_list};
use crate::option_name::OptionName;
use std::alloc::Global;

/// The order in which crossings are taken.
#[derive(Drop, Debug)]
pub enum OrderWord {
    /// `listed`, or no option: as they stand in the text.
    Listed,
    /// `greedy`: always the one that leaves the fewest open ends.
    Greedy,
    /// The numbers of the items, from 1. That each is there once isn't known yet.
    Given(NumberList),
}

/// The order that the value of `--order` says, or that is taken without the option.
pub(crate) fn read_order(alloc: Global, value: Option<&str>) -> Result<OrderWord, PartsFault>
    ensures { Reads (λ order. order) (order_of (option_map (λ s. s.now) value.entry)) result }
{
    let Some(text) = value else {
        return Ok(OrderWord::Listed);
    };
    match text {
        "listed" => Ok(OrderWord::Listed),
        "greedy" => Ok(OrderWord::Greedy),
        _ => match read_list(alloc, text)? {
            Some(list) => Ok(OrderWord::Given(list)),
            None => Err(PartsFault::Refused(PartsRefusal::List {
                option: OptionName::Order,
            })),
        },
    }
}
