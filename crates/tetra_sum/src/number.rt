//! The number of a colouring.

ghost use Rattle.std.specs.Prelude.{◌≡◌, ◌-◌, ◌^◌, ◌≤◌, ℕ, length};
ghost use Rattle.std.specs.List.{All};
ghost use Rattle.kirby_terms.specs.Colourings.{colouring_at};
ghost use Rattle.tetra_sum.specs.Colourings.{colours_below};

/// The number of a colouring by 0 to r-2, from 1 in dictionary order, the last label fastest.
pub(crate) fn number_of(r: u32, colours: &[u32]) -> u64
    requires low { 3 ≤ r }
    requires few { All (λ colour. colour ≤ r - 2) colours.now }
    requires small { (r - 1) ^ length colours.now ≤ 65536 }
    ensures { (number : ℕ) → 1 ≤ number → number ≤ (r - 1) ^ length colours.now
        → colouring_at (colours_below r) (length colours.now) number ≡ colours.now → result ≡ number }
{
    let mut number = 0;
    for colour in colours {
        number = number * u64::from(r - 1) + u64::from(*colour);
    }
    number + 1
}
