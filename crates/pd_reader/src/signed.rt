//! Signed numbers as items of a list: a number, or `-` and a number.

ghost use Rattle.text_shapes.specs.Readers.{Found, Missed};
ghost use Rattle.pd_reader.specs.Signed.{IsSigned, signed_tokens, signed_begins_unclosed};

use crate::list::TextItem;
use crate::scan::{number, read_number, skip, stands};

impl TextItem for i32 {
    ghost fits = { IsSigned };

    ghost tokens = { signed_tokens };

    ghost begins_unclosed = { signed_begins_unclosed };

    fn read(bytes: &[u8], at: usize) -> Result<(i32, usize), usize> {
        let start = skip(bytes, at);
        if stands(bytes, start, b'-') {
            let (size, next) = read_number(bytes, start + 1)?;
            return Ok((-(size as i32), next));
        }
        match number(bytes, start) {
            Some((size, next)) => Ok((size as i32, next)),
            None => Err(start),
        }
    }
}
