//! Pairings are equal, and ordered, as their lists of partners are: their codes follow from these.

ghost use Rattle.std.specs.Prelude.{◌≡◌, Some, refl, bytes_eq};
ghost use Rattle.std.specs.Ordering.{nat_cmp};
ghost use Rattle.std.specs.Cmp.{partial_equiv_from_equiv};
ghost use Rattle.std.specs.Cmp.Lexicographic.{slice_cmp, nat_list_eq_equiv, nat_list_cmp_total, texts_ties, texts_po};

use crate::pairing::Pairing;
use std::cmp::Ordering;

impl PartialEq for Pairing {
    ghost eq = { λ p q. bytes_eq p q };

    ghost laws = { partial_equiv_from_equiv nat_list_eq_equiv };

    fn eq(&self, other: &Pairing) -> bool {
        self.partners() == other.partners()
    }
}

impl Eq for Pairing {
    ghost laws = { nat_list_eq_equiv };
}

impl PartialOrd for Pairing {
    ghost partial_cmp = { λ p q. Some (slice_cmp nat_cmp p q) };

    ghost laws = { texts_po };

    fn partial_cmp(&self, other: &Pairing) -> Option<Ordering> {
        Some(self.cmp(other))
    }
}

impl Ord for Pairing {
    ghost cmp = { λ p q. slice_cmp nat_cmp p q };

    ghost total = { nat_list_cmp_total };

    ghost matches_partial_cmp = { λ p q. refl };

    ghost matches_eq = { λ p q. texts_ties p q };

    fn cmp(&self, other: &Pairing) -> Ordering {
        self.partners().cmp(other.partners())
    }
}
