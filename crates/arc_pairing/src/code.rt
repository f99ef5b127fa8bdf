//! Pairings as numbers, for tables of them.

ghost use Rattle.std.specs.Prelude.{◌≡◌, ◌*◌, ◌<◌, ◌≤◌, ◌^◌, ℕ, List, length, slice_index, slice_set, IfSome};
ghost use Rattle.arc_pairing.specs.Pairings.{IsShortPairing};
ghost use Rattle.arc_pairing.specs.Codes.{digits_of, code_of, weight, Spells};

use crate::limits::MOST_POINTS;
use crate::pairing::Pairing;

/// 2^120: what one point more adds to a code.
const POINT: u128 = 1_329_227_995_784_915_872_903_807_060_280_344_576;

/// The partners as digits to base 32, the first one lowest.
fn digits(partner: &[u8]) -> u128
    requires small { (i : ℕ) → i < length partner.now → slice_index partner.now i < 32 }
    requires few { length partner.now ≤ MOST_POINTS }
    ensures value { result ≡ digits_of partner.now }
    ensures bound { result < 2 ^ 120 }
{
    let mut sum = 0;
    let mut at = partner.len();
    while at > 0 {
        at -= 1;
        sum = sum * 32 + u128::from(partner[at]);
    }
    sum
}

/// The code of a pairing with these partners.
pub(crate) fn code_of(partner: &[u8]) -> u128
    requires { IsShortPairing partner.now }
    ensures { result ≡ code_of partner.now }
{
    digits(partner) + partner.len() as u128 * POINT
}

/// The digit at that place, with what it counts there.
#[inline]
fn placed(digit: u8, at: u8) -> u128
    requires digit { digit < 32 }
    requires at { at < MOST_POINTS }
    ensures value { result ≡ digit * weight at }
    ensures small { result < 2 ^ 120 }
{
    u128::from(digit) << (5 * u32::from(at))
}

/// The code with another digit at that place, where another one was.
#[inline]
pub(crate) fn changed(code: u128, at: u8, was: u8, is: u8) -> u128
    requires spelled { (partner : List ℕ) × Spells code partner × (at < length partner) × (slice_index partner at ≡ was) }
    requires is { is < 32 }
    ensures { (partner : List ℕ) → Spells code partner → at < length partner → slice_index partner at ≡ was → Spells result (slice_set partner at is) }
{
    code + placed(is, at) - placed(was, at)
}

impl Pairing {
    /// The pairing as one number, which no other pairing has: the partners are its digits to base 32,
    /// the first one lowest, and the number of points stands above 24 such digits (this project's
    /// own). It takes no memory.
    #[inline]
    pub fn code(&self) -> u128
        ensures value { result ≡ code_of self.now }
        ensures pairing { IsShortPairing self.now }
    {
        self.code
    }

    /// The pairing that has this code, if one has. It takes no memory.
    pub fn from_code(code: u128) -> Option<Pairing>
        ensures found { (partner : List ℕ) → IsShortPairing partner → code ≡ code_of partner → result ≡ Some partner }
        ensures only { IfSome result (λ pairing. code_of pairing ≡ code) }
    {
        let points = code / POINT;
        if points > MOST_POINTS as u128 {
            return None;
        }
        let mut rest = code % POINT;
        let mut partner = [0u8; MOST_POINTS];
        for at in 0..points as usize {
            partner[at] = (rest % 32) as u8;
            rest /= 32;
        }
        if rest > 0 {
            return None;
        }
        match Pairing::new(&partner[..points as usize]) {
            Ok(pairing) => Some(pairing),
            Err(_) => None,
        }
    }
}
