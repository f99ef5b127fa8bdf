//! Changes of four partners at once: two pairs become two others of the same points.

ghost use Rattle.std.specs.Prelude.{◌≡◌, ◌≢◌, ◌<◌, length, slice_index, slice_set};
ghost use Rattle.state_sums.specs.Networks.{IsPairing};
ghost use Rattle.kept_seams.specs.Changes.{joined_at, crossed_at};
ghost use Rattle.arc_pairing.specs.Pairings.{IsShortPairing};
ghost use Rattle.arc_pairing.specs.Codes.{Spells};

use crate::code::changed;
use crate::limits::MOST_POINTS;
use crate::pairing::{Pairing, copied};
use arrayvec::ArrayVec;
use std::marker::Model;

/// Partners that are changed point by point, with their code: between the changes they are no pairing.
///
/// Contracts see the list of partners.
#[derive(Drop)]
struct Partners {
    partners: ArrayVec<u8, MOST_POINTS>,
    code: u128,
}

impl Model for Partners {
    ghost use Rattle.std.specs.Prelude.{ℕ, List};
    ghost use Rattle.arc_pairing.specs.Codes.{Spells};

    ghost Value = { List ℕ };

    ghost view = { λ changing. changing.partners.items };

    ghost invariant = { λ changing. Spells changing.code changing.partners.items };
}

impl Partners {
    /// The partners of a pairing.
    #[inline]
    fn of(pairing: &Pairing) -> Partners
        ensures value { result ≡ pairing.now }
        ensures pairing { IsShortPairing pairing.now }
    {
        Partners {
            partners: copied(pairing.partners()),
            code: pairing.code(),
        }
    }

    /// Gives a point another partner.
    #[inline]
    fn set(&mut self, at: u8, is: u8)
        requires at { at < length self.old }
        requires is { is < 32 }
        ensures { self.new ≡ slice_set self.old at is }
    {
        let partners = self.partners.as_mut_slice();
        let was = partners[usize::from(at)];
        partners[usize::from(at)] = is;
        self.code = changed(self.code, at, was, is);
    }

    /// The pairing that these partners are.
    #[inline]
    fn into_pairing(self) -> Pairing
        requires { IsPairing self }
        ensures { result ≡ self }
    {
        Pairing {
            partners: self.partners,
            code: self.code,
        }
    }
}

impl Pairing {
    /// The pairing in which s and t are paired, and what were their partners; the same one, where they were paired
    /// already.
    #[inline]
    pub(crate) fn joined(&self, s: u8, t: u8) -> Pairing
        requires s_in { s < length self.now }
        requires t_in { t < length self.now }
        requires apart { s ≢ t }
        ensures { result ≡ joined_at self.now s t }
    {
        let x = self.partner(s);
        let y = self.partner(t);
        if x == t {
            return self.copy();
        }
        let mut partners = Partners::of(self);
        partners.set(s, t);
        partners.set(t, s);
        partners.set(x, y);
        partners.set(y, x);
        partners.into_pairing()
    }

    /// The pairing in which s and t have each other's partners; the same one, where they were paired.
    #[inline]
    pub(crate) fn crossed(&self, s: u8, t: u8) -> Pairing
        requires s_in { s < length self.now }
        requires t_in { t < length self.now }
        requires apart { s ≢ t }
        ensures { result ≡ crossed_at self.now s t }
    {
        let x = self.partner(s);
        let y = self.partner(t);
        if x == t {
            return self.copy();
        }
        let mut partners = Partners::of(self);
        partners.set(s, y);
        partners.set(t, x);
        partners.set(x, t);
        partners.set(y, s);
        partners.into_pairing()
    }
}
