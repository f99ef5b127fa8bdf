//! Parameters m, A and r, checked once.

ghost use Rattle.std.specs.Prelude.{◌≡◌, ◌<◌, ◌≤◌, ◌^◌, ◌*◌, ◌↔◌, ℕ, pos, IfOk, IfErr, IsOk};
ghost use Rattle.std.specs.Int.{IsGcd};
ghost use Rattle.ring_identities.specs.Residues.{residue};
ghost use Rattle.ring_identities.specs.Powers.{IsInverse};
ghost use Rattle.root_quantum.specs.Parameters.{IsParameters, IsParameters-prop, top_colour};
ghost use Rattle.root_quantum.specs.Refusals.{IsRefused};
ghost use Rattle.root_quantum.specs.declared.fault.ParamFault.{ParamFault};
ghost use Rattle.root_quantum.specs.QuantumNumbers.{inverse_root, loop_value, delta, twist_factor, twist};

use crate::fault::ParamFault;
use crate::form::Form;
use residue_ring::{Common, OutOfRange, Ring};
use std::marker::Model;

/// A modulus m from 2 to 2^62 - 1, a number A of order 4r modulo m, and r from 3 to 10; in the even form r is
/// odd, and the order is 4r or 2r.
///
/// Two values are equal exactly where their m, A, r and form are (law `equal_parameters`).
#[derive(Clone, Copy, Debug, PartialEq, Eq)]
pub struct Params {
    ring: Ring,
    root: u64,
    level: u32,
    form: Form,
    ghost meets: { IsParameters form ring root level } by { IsParameters-prop form ring root level },
}

impl Model for Params {
    ghost use Rattle.root_quantum.specs.Parameters.{Parameters, parameters_code};

    ghost Value = { Parameters };

    ghost coded = { parameters_code };

    ghost view = { λ params.
        record { modulus = params.ring; root = params.root; level = params.level; form = params.form; meets = params.meets } };

    ghost inverse = { λ p. record { ring = p.modulus; root = p.root; level = p.level; form = p.form; meets = p.meets } };
}

impl Params {
    /// The parameters m, A and r in the full form: the order of A modulo m is 4r.
    ///
    /// The refusals are tried in the order of `ParamFault`, and each comes exactly where it holds:
    /// 13, 3, 3 is refused for the order 3. `EvenLevel` never comes.
    pub fn new(m: u64, a: u64, r: u32) -> Result<Self, ParamFault>
        ensures made { IfOk result (λ p. (p.modulus ≡ m) × (p.root ≡ a) × (p.level ≡ r) × (p.form ≡ Form.All)) }
        ensures succeeds { IsOk result ↔ IsParameters Form.All m a r }
        ensures refused { (fault : ParamFault) → (result ≡ Err fault) ↔ IsRefused Form.All m a r fault }
    {
        Params::of_form(m, a, r, Form::All)
    }

    /// The parameters m, A and r in the even form: r is odd, and the order of A modulo m is 4r or 2r. So
    /// 11, 2, 5 is accepted, where the order is 10.
    ///
    /// The refusals are tried in the order of `ParamFault`, and each comes exactly where it holds:
    /// 41, 6, 10 is refused for the level, and 13, 3, 3 for the order 3.
    pub fn new_even(m: u64, a: u64, r: u32) -> Result<Self, ParamFault>
        ensures made { IfOk result (λ p. (p.modulus ≡ m) × (p.root ≡ a) × (p.level ≡ r) × (p.form ≡ Form.Even)) }
        ensures succeeds { IsOk result ↔ IsParameters Form.Even m a r }
        ensures refused { (fault : ParamFault) → (result ≡ Err fault) ↔ IsRefused Form.Even m a r fault }
    {
        Params::of_form(m, a, r, Form::Even)
    }

    // The parameters of a form.
    fn of_form(m: u64, a: u64, r: u32, form: Form) -> Result<Self, ParamFault>
        ensures made { IfOk result (λ p. (p.modulus ≡ m) × (p.root ≡ a) × (p.level ≡ r) × (p.form ≡ form)) }
        ensures refused { IfErr result (IsRefused form m a r) }
    {
        let ring = match Ring::new(m) {
            Ok(ring) => ring,
            Err(OutOfRange) => return Err(ParamFault::Modulus),
        };
        if a == 0 || a >= m {
            return Err(ParamFault::Root);
        }
        if r < 3 || r > 10 {
            return Err(ParamFault::Level);
        }
        if !form.takes_level(r) {
            return Err(ParamFault::EvenLevel);
        }
        let found = ring.order(a, 4 * r);
        if !form.takes_order(r, found) {
            return Err(ParamFault::Order { found });
        }
        Ok(Params {
            ring,
            root: a,
            level: r,
            form,
        })
    }

    /// The ring of residues modulo m.
    pub fn ring(&self) -> &Ring
        ensures { result.now ≡ self.now.modulus }
    {
        &self.ring
    }

    /// A.
    pub fn root(&self) -> u64
        ensures { result ≡ self.now.root }
    {
        self.root
    }

    /// r, from 3 to 10.
    pub fn level(&self) -> u32
        ensures { result ≡ self.now.level }
    {
        self.level
    }

    /// The form: `Form::All` after `new`, `Form::Even` after `new_even`.
    pub fn form(&self) -> Form
        ensures { result ≡ self.now.form }
    {
        self.form
    }

    /// A^-1, the residue of A^(4r-1).
    #[tactic(auto, unfolding(crate::specs::QuantumNumbers::inverse_root))]
    pub fn root_inverse(&self) -> u64
        ensures inverse { result ≡ inverse_root self.now }
        ensures below { result < self.now.modulus }
    {
        self.ring.pow(self.root, u64::from(4 * self.level - 1))
    }

    /// delta = -A^2 - A^-2, the value of a loop: 6 at 41, 2, 5.
    #[tactic(auto, using(crate::proofs::QuantumSteps::loop_value_steps))]
    pub fn loop_value(&self) -> u64
        ensures value { result ≡ loop_value self.now }
        ensures below { result < self.now.modulus }
    {
        let ring = &self.ring;
        let inverse = self.root_inverse();
        let square = ring.mul(self.root, self.root);
        let inverse_square = ring.mul(inverse, inverse);
        ring.neg(ring.add(square, inverse_square))
    }

    /// `Delta_n`, the value of the n-th projector's closure: 1, 6, 35, 40, 0 from n = 0 on at 41, 2, 5.
    pub fn delta(&self, n: u32) -> u64
        requires { n ≤ 16 }
        ensures value { result ≡ delta self.now n }
        ensures below { result < self.now.modulus }
    {
        let ring = &self.ring;
        let loop_value = self.loop_value();
        let mut value = 1;
        let mut next = loop_value;
        for _ in 0..n {
            let after = ring.sub(ring.mul(loop_value, next), value);
            value = next;
            next = after;
        }
        value
    }

    /// `mu_n` to the power t, of either sign, where `mu_n` = (-1)^n A^(n^2+2n) is what a full curl on a
    /// strand of colour n multiplies by: 1, 33, 10, 32 from n = 0 on at 41, 2, 5 with t = 1.
    pub fn twist(&self, n: u32, t: i64) -> u64
        requires { n ≤ 8 }
        ensures value { result ≡ twist self.now n t }
        ensures below { result < self.now.modulus }
    {
        let exponent = t.unsigned_abs();
        if t < 0 {
            let factor = self.twist_factor(self.root_inverse(), n);
            self.ring.pow(factor, exponent)
        } else {
            let factor = self.twist_factor(self.root, n);
            self.ring.pow(factor, exponent)
        }
    }

    // (-1)^n a^(n^2+2n).
    #[tactic(auto, using(crate::proofs::TwistSteps::factor_even, crate::proofs::TwistSteps::factor_odd))]
    fn twist_factor(&self, a: u64, n: u32) -> u64
        requires in_ring { a < self.now.modulus }
        requires in_range { n ≤ 8 }
        ensures value { result ≡ residue self.now.modulus (twist_factor (pos a) n) }
        ensures below { result < self.now.modulus }
    {
        let power = self.ring.pow(a, u64::from(n * n + 2 * n));
        if n % 2 == 0 {
            power
        } else {
            self.ring.neg(power)
        }
    }

    /// The inverse of `Delta_n`.
    ///
    /// `Common` comes exactly where `Delta_n` and m share a divisor, and holds the greatest.
    pub fn inverse_delta(&self, n: u32) -> Result<u64, Common>
        requires { n ≤ 16 }
        ensures inverse { IfOk result (λ y. IsInverse self.now.modulus (delta self.now n) y) }
        ensures below { IfOk result (λ y. y < self.now.modulus) }
        ensures common { IfErr result (λ fault. IsGcd (delta self.now n) self.now.modulus fault.gcd) }
        ensures coprime { IsOk result ↔ IsGcd (delta self.now n) self.now.modulus 1 }
    {
        self.ring.inverse(self.delta(n))
    }

    /// The greatest colour of a projector, the smaller of r - 1 and 8.
    pub fn top_colour(&self) -> u32
        ensures { result ≡ top_colour self.now }
    {
        (self.level - 1).min(8)
    }
}
