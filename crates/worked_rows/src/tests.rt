//! Torus links at modulus 41, A = 2 and level 5, where a loop is worth 6.

ghost use Rattle.std.specs.Prelude.{◌≡◌};

use super::*;
use residue_ring::Ring;
use std::test::*;

/// The bracket of the closed braid of two strands with n crossings by Kauffman's formula,
/// A^n (delta^2 - 1) + (-A^-3)^n: 2^n 35 + 5^n. It knows no gluing.
fn torus_bracket(ring: &Ring, n: u64) -> u64
    requires { ring.now ≡ 41 }
{
    ring.add(ring.mul(35, ring.pow(2, n)), ring.pow(5, n))
}

#[test]
fn torus_links_by_formula(rt: HostRuntime) -> Result<(), Fail> {
    let ring = Ring::new(41)?;
    for n in 1..257 {
        let command = format!(in rt.alloc(); "torus {n} 41 2 5")?;
        let report = format!(in rt.alloc(); "{}", torus_bracket(&ring, n))?;
        let mut row = Row::new(rt.alloc(), &command)?;
        row.add(&format!(in rt.alloc(); "> {report}")?)
            .ok()
            .ok_or("a line")?;
        assert!(rt;
            run_row(rt.alloc(), &rt, &row)?.is_as_written(&row),
            "{command}"
        );
    }
    Ok(())
}
