//! The framings, as `--framing` says them.

ghost use Rattle.std.specs.Prelude.{◌≡◌, IfOk, map, option_map};
ghost use Rattle.wrt_request.specs.Framings.{framings_of, signed_value};
ghost use Rattle.wrt_request.specs.Lists.{members_by};
ghost use Rattle.wrt_request.specs.Stages.{Reads};

use crate::fault::{PartsFault, PartsRefusal};
use crate::list::{ValueList, pieces};
use crate::number::decimal;
use crate::option_name::OptionName;
use std::alloc::{AllocError, Global};

/// A list of framings: whole numbers from -2^63 to 2^63 - 1.
pub type FramingList = ValueList<i64>;

/// The whole number that the text writes in decimal, with a `-` or no sign: none for `+1`, `--1` and `-01`, and 0 for `-0`.
fn signed(text: &str) -> Option<i64>
    ensures { result ≡ signed_value text.now }
{
    match text.strip_prefix('-') {
        Some(digits) => match decimal(digits) {
            Some(number) => 0i64.checked_sub_unsigned(number),
            None => None,
        },
        None => match decimal(text) {
            Some(number) => 0i64.checked_add_unsigned(number),
            None => None,
        },
    }
}

/// The list of the whole numbers that the texts write, where each writes one.
fn framings_in(alloc: Global, texts: &[&str]) -> Result<Option<FramingList>, AllocError>
    ensures { IfOk result (λ list. list ≡ members_by signed_value (map (λ s. s.now) texts.now)) }
{
    let mut members = Vec::new(alloc);
    for text in texts {
        match signed(text) {
            Some(number) => members.push(number)?,
            None => return Ok(None),
        }
    }
    Ok(Some(ValueList::of(members)))
}

/// The framings that the value of `--framing` says, or `None` without the option. That they fit isn't known yet.
pub(crate) fn read_framings(
    alloc: Global,
    value: Option<&str>,
) -> Result<Option<FramingList>, PartsFault>
    ensures { Reads (λ list. list) (framings_of (option_map (λ s. s.now) value.entry)) result }
{
    let Some(text) = value else {
        return Ok(None);
    };
    let pieces = pieces(alloc, text)?;
    match framings_in(alloc, &pieces)? {
        Some(list) => Ok(Some(list)),
        None => Err(PartsFault::Refused(PartsRefusal::List {
            option: OptionName::Framing,
        })),
    }
}
