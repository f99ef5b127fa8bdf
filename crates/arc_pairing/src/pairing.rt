//! Pairings of at most 24 points.

ghost use Rattle.std.specs.Prelude.{◌≡◌, ◌<◌, ◌≤◌, ◌↔◌, ℕ, length, slice_index, IsTrue, IsOk, IfOk};
ghost use Rattle.state_sums.specs.Networks.{IsPairing};
ghost use Rattle.arc_pairing.specs.Pairings.{IsPairedAt, IsFirstUnpaired, IsShortPairing, mirrored, IsNoncrossing};

use crate::code::code_of;
use crate::fault::PairingFault;
use crate::limits::MOST_POINTS;
use arrayvec::ArrayVec;
use std::marker::Model;

/// A pairing of at most 24 points, numbered from 0 (Lickorish, ch. 13).
///
/// Contracts see a pairing as the list of partners. Its type keeps that every point has a partner,
/// which is another point and names it back, and their code beside them. Pairings are ordered as these
/// lists are, in dictionary order: 1,0,3,2 is less than 2,3,0,1, and 1,0 is less than both.
#[derive(Drop, Debug)]
pub struct Pairing {
    pub(crate) partners: ArrayVec<u8, MOST_POINTS>,
    pub(crate) code: u128,
}

impl Model for Pairing {
    ghost use Rattle.std.specs.Prelude.{◌≡◌, ℕ, List};
    ghost use Rattle.arc_pairing.specs.Codes.{code_of};
    ghost use Rattle.arc_pairing.specs.Pairings.{IsShortPairing};

    ghost Value = { List ℕ };

    ghost view = { λ pairing. pairing.partners.items };

    ghost inverse = { λ partner. record { partners = record { items = partner }; code = code_of partner } };

    ghost inverse_ok = { λ pairing kept i. record { partners = pairing.partners; code = kept.1 i } };

    ghost invariant = { λ pairing. IsShortPairing pairing.partners.items × (code_of pairing.partners.items ≡ pairing.code) };
}

/// Whether the point has a partner that names it back.
fn is_paired(partner: &[u8], at: usize) -> bool
    requires { at < length partner.now }
    ensures { IsTrue result ↔ IsPairedAt partner.now at }
{
    let other = usize::from(partner[at]);
    other < partner.len() && other != at && usize::from(partner[other]) == at
}

/// An equal list, of at most 24 numbers.
#[inline]
pub(crate) fn copied(partners: &[u8]) -> ArrayVec<u8, MOST_POINTS>
    requires { length partners.now ≤ MOST_POINTS }
    ensures { result.items ≡ partners.now }
{
    let mut copies = ArrayVec::new();
    let _fits = copies.try_extend_from_slice(partners);
    copies
}

impl Pairing {
    /// The pairing of these partners, with its code.
    pub(crate) fn of(partners: ArrayVec<u8, MOST_POINTS>) -> Pairing
        requires { IsShortPairing partners.items }
        ensures { result ≡ partners.items }
    {
        let code = code_of(partners.as_slice());
        Pairing { partners, code }
    }

    /// The pairing in which point i has the partner `partner[i]`, for at most 24 points, from 0.
    ///
    /// `Long` holds how many points were given. `NotPairing` holds the first point whose partner is
    /// out of range, is the point itself, or doesn't name it back: 2 for `[1, 0, 3]`. It takes no
    /// memory.
    pub fn new(partner: &[u8]) -> Result<Pairing, PairingFault>
        ensures made { IfOk result (λ pairing. pairing ≡ partner.now) }
        ensures succeeds { length partner.now ≤ MOST_POINTS → IsPairing partner.now → IsOk result }

        // The length is looked at before the points.
        ensures long { (given : ℕ) → (result ≡ Err (PairingFault.Long given)) ↔ (MOST_POINTS < length partner.now) × (given ≡ length partner.now) }
        ensures not_pairing { (at : ℕ) → result ≡ Err (PairingFault.NotPairing at) → IsFirstUnpaired partner.now at }
    {
        if partner.len() > MOST_POINTS {
            return Err(PairingFault::Long {
                given: partner.len(),
            });
        }
        for at in 0..partner.len() {
            if !is_paired(partner, at) {
                return Err(PairingFault::NotPairing { at: at as u8 });
            }
        }
        let mut partners = ArrayVec::new();
        for other in partner {
            partners.push(*other);
        }
        Ok(Pairing::of(partners))
    }

    /// The number of points, at most 24. It takes no memory.
    #[inline]
    pub fn len(&self) -> u8
        ensures value { result ≡ length self.now }
        ensures pairing { IsShortPairing self.now }
    {
        self.partners.len() as u8
    }

    /// The partner of the point `at`, which is in range. It takes no memory.
    #[inline]
    pub fn partner(&self, at: u8) -> u8
        requires { at < length self.now }
        ensures { result ≡ slice_index self.now at }
    {
        self.partners.as_slice()[usize::from(at)]
    }

    /// The partners, by points. It takes no memory.
    #[inline]
    pub fn partners(&self) -> &[u8]
        ensures value { result.now ≡ self.now }
        ensures pairing { IsShortPairing self.now }
    {
        self.partners.as_slice()
    }

    /// An equal pairing. It takes no memory.
    #[inline]
    pub fn copy(&self) -> Pairing
        ensures value { result ≡ self.now }
        ensures pairing { IsShortPairing self.now }
    {
        Pairing {
            partners: copied(self.partners.as_slice()),
            code: self.code,
        }
    }

    /// The mirror image, in which point i becomes point n-1-i of n. It takes no memory.
    pub fn mirror(&self) -> Pairing
        ensures value { result ≡ mirrored self.now }
        ensures pairing { IsShortPairing self.now }
    {
        let points = self.partners();
        let mut partners = ArrayVec::new();
        for at in 0..points.len() {
            let other = points[points.len() - 1 - at];
            partners.push(points.len() as u8 - 1 - other);
        }
        Pairing::of(partners)
    }

    /// Whether no two pairs cross: 3,2,1,0 and 1,0,3,2 are noncrossing, 2,3,0,1 is not. It takes no memory.
    pub fn is_noncrossing(&self) -> bool
        ensures { IsTrue result ↔ IsNoncrossing self.now }
    {
        let points = self.partners();
        for at in 0..points.len() {
            let other = usize::from(points[at]);
            for between in at + 1..other {
                if usize::from(points[between]) > other {
                    return false;
                }
            }
        }
        true
    }
}
