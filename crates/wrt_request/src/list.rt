//! Lists as the values of options write them.

ghost use Rattle.std.specs.Prelude.{◌≡◌, ◌==◌, IfOk, map, option_map};
ghost use Rattle.std.specs.List.{slice_split};
ghost use Rattle.wrt_request.specs.Lists.{member_value, members_of, list_value, pieces_of};

use crate::number::decimal;
use std::alloc::{AllocError, Global};
use std::marker::Model;

/// A list as the value of an option writes it.
///
/// Contracts see it as the list of its members.
#[derive(Drop, Debug)]
pub struct ValueList<T> {
    members: Vec<T>,
}

/// A list of numbers below 10^9.
pub type NumberList = ValueList<u32>;

impl<T> Model for ValueList<T> {
    ghost use Rattle.std.specs.Prelude.{List};

    ghost Value = { List T };

    ghost view = { λ list. list.members.items };
}

impl<T> ValueList<T> {
    /// The list of these members.
    pub(crate) fn of(members: Vec<T>) -> ValueList<T>
        ensures { result ≡ members.items }
    {
        ValueList { members }
    }

    /// The members, in their order. It takes no memory.
    pub fn members(&self) -> &[T]
        ensures { result.now ≡ self.now }
    {
        &self.members
    }
}

/// The number of at most nine digits that the text writes.
fn member(text: &str) -> Option<u32>
    ensures { result ≡ member_value text.now }
{
    if text.len() > 9 {
        return None;
    }
    match decimal(text) {
        Some(number) => Some(number as u32),
        None => None,
    }
}

/// The pieces of the text between its commas.
fn split_at_commas<'a>(alloc: Global, text: &'a str) -> Result<Vec<&'a str>, AllocError>
    ensures { IfOk result (λ pieces. map (λ s. s.now) pieces.items ≡ slice_split (λ b. b == 44) text.entry.now) }
{
    text.split(',').collect(alloc)
}

/// The list of the numbers that the texts write, where each writes one.
fn list_of_members(alloc: Global, texts: &[&str]) -> Result<Option<NumberList>, AllocError>
    ensures { IfOk result (λ list. list ≡ members_of (map (λ s. s.now) texts.now)) }
{
    let mut members = Vec::new(alloc);
    for text in texts {
        match member(text) {
            Some(number) => members.push(number)?,
            None => return Ok(None),
        }
    }
    Ok(Some(ValueList::of(members)))
}

/// The pieces of the text between its commas; none of the empty text.
pub(crate) fn pieces<'a>(alloc: Global, text: &'a str) -> Result<Vec<&'a str>, AllocError>
    ensures { IfOk result (λ pieces. map (λ s. s.now) pieces.items ≡ pieces_of text.entry.now) }
{
    if text.is_empty() {
        return Ok(Vec::new(alloc));
    }
    split_at_commas(alloc, text)
}

/// The list that the text writes: the empty text the empty list, and other texts numbers of at most
/// nine digits with single commas between them. `None` for `1,,2`, `1, 2` and `1,02`.
pub(crate) fn read_list(alloc: Global, text: &str) -> Result<Option<NumberList>, AllocError>
    ensures { IfOk result (λ list. list ≡ list_value text.now) }
{
    let pieces = pieces(alloc, text)?;
    list_of_members(alloc, &pieces)
}
