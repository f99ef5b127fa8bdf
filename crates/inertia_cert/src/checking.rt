//! The check of a certificate.

ghost use Rattle.std.specs.Prelude.{◌≡◌, ◌↔◌, Bool, true, false, IsTrue, MatchResult};
ghost use Rattle.inertia_laws.specs.Certificates.{IsCertificate};
ghost use Rattle.inertia_laws.specs.Checking.{check_fits};
ghost use Rattle.inertia_cert.specs.SymmetricMatrices.{entry};
ghost use Rattle.inertia_cert.specs.Grids.{Decides};
ghost use Rattle.inertia_cert.specs.Eliminations.{size_of, certificate_size, p_of, q_of, diagonal_of, certified};

use crate::agreement::agrees;
use crate::certificate::Certificate;
use crate::elimination::Elimination;
use crate::fault::OutOfBits;
use crate::matrix::Matrix;
use crate::products::{InverseEntry, congruence_agrees};
use crate::starting::Identity;

/// Whether both equations hold, unless a number that their entries form leaves 128 bits.
fn checked(matrix: &Matrix, done: &Elimination) -> Option<bool>
    requires { size_of done.now ≡ matrix.now.size }
    ensures { let n = matrix.now.size in let l = entry matrix.now in let c = certified done.now in
        Decides result (check_fits n l (p_of c) (q_of c)) (IsCertificate n l (p_of c) (q_of c) (diagonal_of c)) }
{
    let size = matrix.size() as usize;
    let made = InverseEntry {
        p: &done.p,
        q: &done.q,
    };
    let inverse = agrees(size, &made, &Identity { size })?;
    let congruence = congruence_agrees(matrix, &done.p, &done.matrix)?;
    Some(inverse && congruence)
}

/// Whether the certificate is one of the matrix: P Q is the identity, and P-transposed times the matrix
/// times P is the diagonal. Both have the same size. It takes no memory.
///
/// Every entry of P Q, of the matrix times P, and of P-transposed times the matrix times P, is computed once, with
/// reduced fractions, its sum beginning with its first product. `OutOfBits` comes exactly where a number formed so is past
/// 2^127 - 1 in size. (This project's own.)
pub fn check(matrix: &Matrix, certificate: &Certificate) -> Result<bool, OutOfBits>
    requires { certificate_size certificate.now ≡ matrix.now.size }

    // Each number that the check forms fits, and the answer is whether it is a certificate; or some number doesn't fit.
    ensures { let n = matrix.now.size in let l = entry matrix.now in let c = certificate.now in let fit = check_fits n l (p_of c) (q_of c) in
        MatchResult result (λ answer. (fit ≡ true) × (IsTrue answer ↔ IsCertificate n l (p_of c) (q_of c) (diagonal_of c))) (λ _. fit ≡ false) }
{
    checked(matrix, certificate.done()).ok_or(OutOfBits)
}
