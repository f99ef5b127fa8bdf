//! `Omega+` and `Omega-`, and the surgery value of a Kirby sum (Lickorish, ch. 13).

ghost use Rattle.std.specs.Prelude.{◌≡◌, ◌<◌, ◌≤◌, ℕ, IfOk, IfErr, OnOk};
ghost use Rattle.ring_identities.specs.Residues.{residue};
ghost use Rattle.root_quantum.specs.QuantumNumbers.{twist};
ghost use Rattle.planar_check.specs.declared.sign.Sign.TheVariants.{Plus, Minus};
ghost use Rattle.planar_check.specs.Framings.{FramedDiagram};
ghost use Rattle.planar_check.specs.Tables.{sign_value};
ghost use Rattle.coloured_values.specs.Surgery.{kirby, surgery, plus_count, minus_count};
ghost use Rattle.kirby_terms.specs.Normalisations.{omega_of, omega_term, inverse_power, normalised, IsMissing, IsRefused};

use crate::colours::{colour_at, colour_count};
use inertia_cert::Counts;
use planar_check::Sign;
use residue_ring::Common;
use root_quantum::Params;

/// Why a Kirby sum can't be normalised.
#[derive(Clone, Copy, Debug, PartialEq, Eq)]
pub enum NormFault {
    /// The `Omega` of that sign shares the factor `common` with the modulus.
    NoInverse { sign: Sign, common: u64 },
}

/// `mu_n`, or for `Minus` its inverse.
fn twist(params: &Params, n: u32, sign: Sign) -> u64
    requires { n ≤ 8 }
    ensures value { result ≡ twist params.now n (sign_value sign) }
    ensures below { result < params.now.modulus }
{
    match sign {
        Sign::Plus => params.twist(n, 1),
        Sign::Minus => params.twist(n, -1),
    }
}

/// What colour n adds to the `Omega` of the sign: `Delta_n`^2 times `mu_n` or `mu_n`^-1.
fn omega_term(params: &Params, n: u32, sign: Sign) -> u64
    requires { n ≤ 8 }
    ensures value { result ≡ residue params.now.modulus (omega_term params.now sign n) }
    ensures below { result < params.now.modulus }
{
    let ring = params.ring();
    let delta = params.delta(n);
    ring.mul(ring.mul(delta, delta), twist(params, n, sign))
}

/// `Omega+` or `Omega-`: the sum, over the colours n of the parameters' form, of `Delta_n`^2 times `mu_n` or `mu_n`^-1. They are
/// 23 and 5 at 41, 2, 5. It takes no memory.
pub fn omega(params: &Params, sign: Sign) -> u64
    ensures value { result ≡ omega_of params.now sign }
    ensures below { result < params.now.modulus }
{
    let mut sum = 0;
    for place in 0..colour_count(params) {
        let term = omega_term(params, colour_at(params, place), sign);
        sum = params.ring().add(sum, term);
    }
    sum
}

/// The `Omega` of the sign to the power -count; where the count is 0 no inverse is wanted.
fn inverse_power(params: &Params, sign: Sign, count: u32) -> Result<u64, NormFault>
    ensures power { IfOk result (λ power. power ≡ inverse_power params.now sign count) }
    ensures below { IfOk result (λ power. power < params.now.modulus) }
    ensures none { OnOk result ((common : ℕ) → ¬ IsMissing params.now sign count common) }
    ensures missing { IfErr result (λ fault. (common : ℕ) × (fault ≡ NormFault.NoInverse sign common) × IsMissing params.now sign count common) }
{
    if count == 0 {
        return Ok(1);
    }
    match params.ring().inverse(omega(params, sign)) {
        Ok(inverse) => Ok(params.ring().pow(inverse, u64::from(count))),
        Err(Common { gcd }) => Err(NormFault::NoInverse { sign, common: gcd }),
    }
}

/// The Kirby sum `value`, a residue, times `Omega+` to the power -b+ and `Omega-` to the power -b-, for the positive and the negative
/// count: the surgery value of a diagram with this sum and these counts of its linking matrix.
///
/// `NoInverse` comes exactly where the count of that sign is above 0 and its `Omega` shares a factor with m, `Plus` first, and holds
/// the greatest common divisor. It takes no memory.
pub fn normalise(params: &Params, value: u64, counts: &Counts) -> Result<u64, NormFault>
    requires { value < params.now.modulus }
    ensures normalised { IfOk result (λ found. found ≡ normalised params.now value counts.now.positive counts.now.negative) }
    ensures surgery { (diagram : FramedDiagram) → value ≡ kirby params.now diagram.items diagram.framings
        → counts.now.positive ≡ plus_count diagram → counts.now.negative ≡ minus_count diagram → IfOk result (λ found. found ≡ surgery params.now diagram) }
    ensures below { IfOk result (λ found. found < params.now.modulus) }

    // Each inverse that is wanted is there, or the first that is missing is named.
    ensures plus { OnOk result ((common : ℕ) → ¬ IsMissing params.now Plus counts.now.positive common) }
    ensures minus { OnOk result ((common : ℕ) → ¬ IsMissing params.now Minus counts.now.negative common) }
    ensures refused { IfErr result (IsRefused params.now counts.now.positive counts.now.negative) }
{
    let plus = inverse_power(params, Sign::Plus, counts.positive)?;
    let minus = inverse_power(params, Sign::Minus, counts.negative)?;
    let ring = params.ring();
    Ok(ring.mul(ring.mul(value, plus), minus))
}
