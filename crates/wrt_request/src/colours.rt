//! The colours, as `--colors` says them.

ghost use Rattle.std.specs.Prelude.{option_map};
ghost use Rattle.wrt_request.specs.Colours.{colours_of};
ghost use Rattle.wrt_request.specs.Stages.{Reads};

use crate::fault::{PartsFault, PartsRefusal};
use crate::list::{NumberList, read_list};
use crate::option_name::OptionName;
use std::alloc::Global;

/// The colours that the value of `--colors` says, or `None` without the option. That they fit isn't known yet.
pub(crate) fn read_colours(
    alloc: Global,
    value: Option<&str>,
) -> Result<Option<NumberList>, PartsFault>
    ensures { Reads (λ list. list) (colours_of (option_map (λ s. s.now) value.entry)) result }
{
    let Some(text) = value else {
        return Ok(None);
    };
    match read_list(alloc, text)? {
        Some(list) => Ok(Some(list)),
        None => Err(PartsFault::Refused(PartsRefusal::List {
            option: OptionName::Colors,
        })),
    }
}
