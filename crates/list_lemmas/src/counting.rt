//! Counting in lists.

ghost use Rattle.std.specs.Prelude.{◌≡◌};
ghost use Rattle.list_lemmas.specs.Times.{times_in};

/// How often the number stands in the list. It takes no memory.
#[inline]
pub fn count_of(numbers: &[u32], number: u32) -> usize
    ensures { result ≡ times_in numbers.now number }
{
    numbers.iter().filter(|other| number == **other).count()
}
