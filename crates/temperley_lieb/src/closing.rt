//! The closure of an element.

ghost use Rattle.std.specs.Prelude.{◌≡◌, ◌<◌};
ghost use Rattle.root_quantum.specs.QuantumNumbers.{loop_value};
ghost use Rattle.strand_algebra.specs.Elements.{close};
ghost use Rattle.temperley_lieb.specs.Elements.{AreBelow};

use crate::element::Element;
use crate::stacking::Closing;
use root_quantum::Params;

/// The closure: top and bottom joined strand by strand, the sum of the coefficients times delta to the number
/// of loops, modulo m (Lickorish, ch. 13). The coefficients are below m. It takes no memory.
pub fn close(params: &Params, x: &Element) -> u64
    requires { AreBelow params.now.modulus x.now }
    ensures value { result ≡ close params.now.modulus (loop_value params.now) x.now.strands x.now.terms }
    ensures below { result < params.now.modulus }
{
    let ring = params.ring();
    let delta = params.loop_value();
    let closing = Closing::new(x.strands());
    let mut sum = 0;
    for term in x.terms() {
        let loops = closing.loops(&term.pairing);
        let worth = ring.mul(term.weight, ring.pow(delta, u64::from(loops)));
        sum = ring.add(sum, worth);
    }
    sum
}
