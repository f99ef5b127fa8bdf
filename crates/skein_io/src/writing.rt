ghost use Rattle.std.specs.Prelude.{◌≡◌, ◌<◌, ◌≤◌, ℕ, length, take, OnOk};
ghost use Rattle.skein_io.specs.Faults.{Rose};
ghost use Rattle.skein_io.specs.Sink.{Appends};

use crate::sink::Sink;

/// Why `write_all` didn't write the whole piece.
#[derive(Clone, Copy, Debug, PartialEq, Eq)]
pub enum Wrote {
    /// A write failed, behind the first `sent` bytes.
    Fault { sent: usize },
}

/// Writes the whole of `piece`, in as many writes as `sink` wants. It takes no memory.
///
/// `Fault` comes where a write failed, which isn't tried again. It holds how many bytes were
/// appended before: fewer than `piece` has.
pub fn write_all<K: Sink>(sink: &mut K, piece: &[u8]) -> Result<(), Wrote>
    ensures whole { OnOk result (Appends (K.taken sink.old) piece.now (K.taken sink.new)) }
    ensures no_fault { OnOk result (K.faults sink.new ≡ K.faults sink.old) }

    // A fault is a fault of the sink, in this call, and says what was appended.
    ensures fault { (sent : ℕ) → result ≡ Err (Wrote.Fault sent)
        → Rose (K.faults sink.old) (K.faults sink.new) }
    ensures sent { (sent : ℕ) → result ≡ Err (Wrote.Fault sent)
        → Appends (K.taken sink.old) (take sent piece.now) (K.taken sink.new) }
    ensures short { (sent : ℕ) → result ≡ Err (Wrote.Fault sent) → sent < length piece.now }

    ensures never_falls { K.faults sink.old ≤ K.faults sink.new }
{
    let mut sent = 0;
    while sent < piece.len() {
        let Ok(count) = sink.write(&piece[sent..]) else {
            return Err(Wrote::Fault { sent });
        };
        sent += count;
    }
    Ok(())
}
