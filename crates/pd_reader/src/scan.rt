//! The tokens at a place of a text. Places count bytes from 0.

ghost use Rattle.std.specs.Prelude.{◌≡◌, ◌+◌, ◌<◌, ◌≤◌, length, drop, slice_index, IsTrue, IfOk, IfErr, IfSome, OnOk, IfNone, ◌↔◌, false, suc, [], ◌∷◌};
ghost use Rattle.text_shapes.specs.Tokens.{is_space, IsNumber, number_tokens};
ghost use Rattle.text_shapes.specs.Reach.{common, is_digit, place, IsToken};
ghost use Rattle.text_shapes.specs.Readers.{Skips, Stands, Falls, LongestNumber, BeginsNoNumber, Found, Missed};

#[tactic(auto, unfolding(text_shapes::specs::Tokens::is_space))]
fn is_white(byte: u8) -> bool
    ensures { result ≡ is_space byte }
{
    matches!(byte, b' ' | b'\t' | b'\r' | b'\n')
}

fn is_decimal(byte: u8) -> bool
    ensures { result ≡ is_digit byte }
{
    byte >= b'0' && byte <= b'9'
}

/// The first place from `at` on that holds no white space, or the length.
pub fn skip(bytes: &[u8], at: usize) -> usize
    requires { at ≤ length bytes.now }
    ensures { Skips bytes.now at result }
{
    let mut place = at;
    while place < bytes.len() && is_white(bytes[place]) {
        place += 1;
    }
    place
}

/// How many first bytes of `word` stand from `at` on.
pub fn agree(bytes: &[u8], at: usize, word: &[u8]) -> usize
    requires { at ≤ length bytes.now }
    ensures within { at + result ≤ length bytes.now }
    ensures count { result ≡ common word.now (drop at bytes.now) }
{
    let mut count = 0;
    while count < word.len() && at + count < bytes.len() && bytes[at + count] == word[count] {
        count += 1;
    }
    count
}

/// The longest number that begins at `at`, as its value and the place after it. A number is one to six
/// decimal digits, the first not 0. `None` comes where none begins there.
pub fn number(bytes: &[u8], at: usize) -> Option<(u32, usize)>
    requires { at ≤ length bytes.now }
    ensures some { IfSome result (λ found. LongestNumber bytes.now at found.0 found.1) }
    ensures none { IfNone result (BeginsNoNumber bytes.now at) }
{
    if at == bytes.len() || !is_decimal(bytes[at]) || bytes[at] == b'0' {
        return None;
    }
    let mut value = (bytes[at] - b'0') as u32;
    let mut place = at + 1;
    while value < 100000 && place < bytes.len() && is_decimal(bytes[place]) {
        value = value * 10 + (bytes[place] - b'0') as u32;
        place += 1;
    }
    Some((value, place))
}

/// The longest number that stands from `at` on behind white space, and where it ends, or the place at which
/// none begins.
pub fn read_number(bytes: &[u8], at: usize) -> Result<(u32, usize), usize>
    requires { at ≤ length bytes.now }
    ensures ok { IfOk result (λ found. Found IsNumber number_tokens bytes.now at found.0 found.1) }
    ensures err { IfErr result (λ p. Missed IsNumber number_tokens bytes.now at p) }
{
    let start = skip(bytes, at);
    match number(bytes, start) {
        Some(found) => Ok(found),
        None => Err(start),
    }
}

/// Where a word ends that may stand behind white space, or the place up to which it stands.
pub fn word(bytes: &[u8], at: usize, word: &[u8]) -> Result<usize, usize>
    requires within { at ≤ length bytes.now }
    requires token { IsToken word.now }
    ensures ok { IfOk result (λ next. Stands bytes.now at word.now next) }
    ensures err { IfErr result (λ p. Falls bytes.now at word.now p) }
{
    let start = skip(bytes, at);
    let count = agree(bytes, start, word);
    if count == word.len() {
        Ok(start + count)
    } else {
        Err(start + count)
    }
}

/// The same for a word of one byte.
pub fn mark(bytes: &[u8], at: usize, mark: u8) -> Result<usize, usize>
    requires within { at ≤ length bytes.now }
    requires token { is_space mark ≡ false }
    ensures ok { IfOk result (λ next. Stands bytes.now at (mark ∷ []) next) }
    ensures err { IfErr result (λ p. Falls bytes.now at (mark ∷ []) p) }
{
    word(bytes, at, &[mark])
}

/// Whether the byte stands at a place.
pub fn stands(bytes: &[u8], at: usize, byte: u8) -> bool
    ensures { IsTrue result ↔ ((at < length bytes.now) × (slice_index bytes.now at ≡ byte)) }
{
    at < bytes.len() && bytes[at] == byte
}

/// Nothing but white space stands from `at` on. Else the first place that holds something else.
pub fn finish(bytes: &[u8], at: usize) -> Result<(), usize>
    requires { at ≤ length bytes.now }
    ensures ok { OnOk result (place bytes.now at [] ≡ suc (length bytes.now)) }
    ensures err { IfErr result (λ p. (place bytes.now at [] ≡ p) × (p ≤ length bytes.now)) }
{
    let end = skip(bytes, at);
    if end == bytes.len() { Ok(()) } else { Err(end) }
}
