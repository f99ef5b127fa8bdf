// Why a call on residues has no answer.

/// The modulus is below 2 or at least 2^62.
#[derive(Clone, Copy, Debug, PartialEq, Eq)]
pub struct OutOfRange;

/// A residue that has no inverse, since it shares the divisor `gcd` with the modulus.
#[derive(Clone, Copy, Debug, PartialEq, Eq)]
pub struct Common {
    /// The greatest common divisor of the residue and the modulus; the modulus itself for 0.
    pub gcd: u64,
}
