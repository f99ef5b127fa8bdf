ghost use Rattle.std.specs.Prelude.{◌≡◌, ◌<◌, ◌≤◌, ℕ, List, length, take, Option, OnOk, OnErr, IfOk};
ghost use Rattle.skein_io.specs.Faults.{Rose};
ghost use Rattle.skein_io.specs.Sink.{Appends};

use crate::source::Failed;

/// Where bytes go.
///
/// A sink has two meanings. `taken` is the list of the bytes that it has taken, or `None` where the
/// sink doesn't tell. `faults` counts its faults; the count never falls, and it stops at 2^64 - 1.
pub trait Sink {
    ghost taken: { Self → Option (List ℕ) };

    ghost faults: { Self → ℕ };

    /// Appends the first bytes of `piece`, which has at least one. It gives their number, which is at
    /// least 1.
    ///
    /// `Failed` says that the count of faults rose. Then no byte was appended.
    fn write(&mut self, piece: &[u8]) -> Result<usize, Failed>
        requires { 0 < length piece.now }
        ensures some { IfOk result (λ count. 0 < count) }
        ensures within { IfOk result (λ count. count ≤ length piece.now) }
        ensures appended { IfOk result (λ count.
            Appends (taken self.old) (take count piece.now) (taken self.new)) }
        ensures no_fault { OnOk result (faults self.new ≡ faults self.old) }
        ensures fault { OnErr result (Rose (faults self.old) (faults self.new)) }
        ensures none_appended { OnErr result (taken self.new ≡ taken self.old) }
        ensures never_falls { faults self.old ≤ faults self.new };
}
