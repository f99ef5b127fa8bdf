// Barrett's reduction: the remainder of a product by shifts and multiplications, with no division.
ghost use Rattle.std.specs.Prelude.{◌≡◌, ◌+◌, ◌*◌, ◌%◌, ◌<◌};
ghost use Rattle.residue_ring.specs.Reciprocal.{estimate, EstimateBounds};

/// The remainder of the product, by at most two subtractions from what the estimate leaves.
///
/// Source: Menezes, van Oorschot and Vanstone, Handbook of Applied Cryptography, 14.3.3.
pub fn reduce(modulus: u64, shift: u32, reciprocal: u64, product: u128) -> u64
    requires { EstimateBounds modulus shift reciprocal product }
    ensures { result ≡ product % modulus }
{
    let rest = rest_of(modulus, shift, reciprocal, product);
    let less = if rest < modulus { rest } else { rest - modulus };
    if less < modulus { less } else { less - modulus }
}

// The product less a multiple of the modulus, so that less than three moduli are left (Barrett's
// reduction).
fn rest_of(modulus: u64, shift: u32, reciprocal: u64, product: u128) -> u64
    requires { EstimateBounds modulus shift reciprocal product }
    ensures rest { product ≡ estimate shift reciprocal product * modulus + result }
    ensures below { result < 3 * modulus }
{
    let top = (product >> shift) as u64;
    let quotient = ((u128::from(top) * u128::from(reciprocal)) >> (shift + 2)) as u64;
    (product - u128::from(quotient) * u128::from(modulus)) as u64
}
