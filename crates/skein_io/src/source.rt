ghost use Rattle.std.specs.Prelude.{◌≡◌, ◌<◌, ◌≤◌, ◌↔◌, ℕ, List, [], length, take, Option, OnOk, OnErr, IfOk, IfSome};
ghost use Rattle.skein_io.specs.Faults.{Rose};
ghost use Rattle.skein_io.specs.Source.{Takes};

/// A read or a write that failed. The count of faults of its source or sink rose.
///
/// It is this project's own, like all of this crate.
#[derive(Clone, Copy, Debug, PartialEq, Eq)]
pub struct Failed;

/// Where bytes come from.
///
/// A source has two meanings. `left` is the list of the bytes that are left, or `None` where the
/// source doesn't tell. `faults` counts its faults; the count never falls, and it stops at 2^64 - 1.
pub trait Source {
    ghost left: { Self → Option (List ℕ) };

    ghost faults: { Self → ℕ };

    /// Takes bytes from the front of what is left, and puts them into the first places of `into`,
    /// which has at least one place. It gives their number: 0 at the end, and nowhere else.
    ///
    /// `Failed` says that the count of faults rose. Then no byte was taken.
    fn read(&mut self, into: &mut [u8]) -> Result<usize, Failed>
        requires { 0 < length into.old }
        ensures within { IfOk result (λ count. count ≤ length into.old) }
        ensures taken { IfOk result (λ count.
            Takes (left self.old) (take count into.new) (left self.new)) }
        ensures end { IfOk result (λ count. IfSome (left self.old) (λ bytes. (count ≡ 0) ↔ (bytes ≡ []))) }
        ensures no_fault { OnOk result (faults self.new ≡ faults self.old) }
        ensures fault { OnErr result (Rose (faults self.old) (faults self.new)) }
        ensures none_taken { OnErr result (left self.new ≡ left self.old) }
        ensures never_falls { faults self.old ≤ faults self.new };
}
