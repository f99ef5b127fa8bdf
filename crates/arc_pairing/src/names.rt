//! How often names stand in a list.

ghost use Rattle.std.specs.Prelude.{◌≡◌, ℕ, IfSome, IsNone};
ghost use Rattle.std.specs.List.Sorted.{IsNonDecreasing};
ghost use Rattle.arc_pairing.specs.Counts.{StandsTwice, IsLeastMiscount};

/// The least name of the ascending list that doesn't stand in it twice, and how often it stands.
pub(crate) fn least_miscount(names: &[u32]) -> Option<(u32, usize)>
    requires { IsNonDecreasing names.now }
    ensures none { result ≡ None → (x : ℕ) → StandsTwice names.now x }
    ensures some { IfSome result (λ found. IsLeastMiscount names.now found.0 found.1) }
{
    let mut start = 0;
    while start < names.len() {
        let name = names[start];
        let mut end = start + 1;
        while end < names.len() && names[end] == name {
            end += 1;
        }
        if end - start != 2 {
            return Some((name, end - start));
        }
        start = end;
    }
    None
}
