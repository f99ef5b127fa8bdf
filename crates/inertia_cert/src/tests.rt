//! Worked rows: small matrices, E8, the matrix that leaves 128 bits, and refusals.

ghost use Rattle.std.specs.Prelude.{IfOk};
ghost use Rattle.inertia_cert.specs.SymmetricMatrices.{AllFit};

use crate::{Fraction, InertiaFault, Matrix, MatrixFault, OutOfBits, check, inertia};
use std::alloc::{AllocError, Global};
use std::test::Fail;

/// 2^60.
const LARGE: i64 = 1_152_921_504_606_846_976;

/// Entries by rows, the size, and the counts of positive, negative and zero entries. The last two rows
/// are a matrix whose first diagonal entry is 0, and E8's, which has eight of one sign.
const COUNTS: [(&[i64], u32, u32, u32, u32); 7] = [
    (&[], 0, 0, 0, 0),
    (&[0], 1, 0, 0, 1),
    (&[0, 1, 1, 0], 2, 1, 1, 0),
    // A matrix congruent to the one before: place 1 taken from place 0.
    (&[-2, 1, 1, 0], 2, 1, 1, 0),
    (&[0, 1, 1, 1, 0, 0, 1, 0, 0], 3, 1, 1, 1),
    (&[0, 0, 0, 0, -5, 0, 0, 0, 7], 3, 1, 1, 1),
    (
        &[
            2, -1, 0, 0, 0, 0, 0, 0, //
            -1, 2, -1, 0, 0, 0, 0, 0, //
            0, -1, 2, -1, 0, 0, 0, -1, //
            0, 0, -1, 2, -1, 0, 0, 0, //
            0, 0, 0, -1, 2, -1, 0, 0, //
            0, 0, 0, 0, -1, 2, -1, 0, //
            0, 0, 0, 0, 0, -1, 2, 0, //
            0, 0, -1, 0, 0, 0, 0, 2,
        ],
        8,
        8,
        0,
        0,
    ),
];

/// The numbers in 128 bits.
fn widened(alloc: Global, entries: &[i64]) -> Result<Vec<i128>, AllocError>
    ensures { IfOk result (λ wide. AllFit wide.items) }
{
    let mut wide = Vec::new(alloc);
    for entry in entries {
        wide.push(i128::from(*entry))?;
    }
    Ok(wide)
}

#[test]
fn worked_rows(rt: HostRuntime) -> Result<(), Fail> {
    let alloc = rt.alloc();
    for (entries, size, positive, negative, zero) in COUNTS {
        assert!(rt; size <= 8);
        let matrix = Matrix::new(alloc, size, &widened(alloc, entries)?)?;
        assert_eq!(rt; matrix.size(), size);
        let certificate = inertia(alloc, &matrix)?;
        let counts = certificate.counts();
        assert_eq!(rt;
            (counts.positive, counts.negative, counts.zero),
            (positive, negative, zero)
        );
        assert_eq!(rt; check(&matrix, &certificate), Ok(true));
    }
    Ok(())
}

/// The numerator and the denominator.
fn shown(fraction: Fraction) -> (i128, i128) {
    (fraction.num, fraction.den)
}

/// The certificate of the hyperbolic plane, which is none of the identity.
#[test]
fn hyperbolic_plane(rt: HostRuntime) -> Result<(), Fail> {
    let alloc = rt.alloc();
    let matrix = Matrix::new(alloc, 2, &widened(alloc, &[0, 1, 1, 0])?)?;
    assert_eq!(rt; matrix.entry(0, 1), 1);
    let certificate = inertia(alloc, &matrix)?;
    assert_eq!(rt; certificate.size(), 2);
    assert_eq!(rt; shown(certificate.diagonal(1)), (-1, 2));
    assert_eq!(rt; shown(certificate.p(0, 1)), (-1, 2));
    assert_eq!(rt; shown(certificate.q(1, 0)), (-1, 1));
    let other = Matrix::new(alloc, 2, &widened(alloc, &[1, 0, 0, 1])?)?;
    assert_eq!(rt; check(&other, &certificate), Ok(false));
    Ok(())
}

/// Entries by rows, and why they are no matrix of size 2.
const NO_MATRICES: [(&[i64], MatrixFault); 2] = [
    (
        &[0, 1, 2, 0],
        MatrixFault::NotSymmetric { row: 0, column: 1 },
    ),
    (
        &[0, 1, 1],
        MatrixFault::Size {
            given: 3,
            wanted: 4,
        },
    ),
];

#[test]
fn no_matrices(rt: HostRuntime) -> Result<(), Fail> {
    for (entries, fault) in NO_MATRICES {
        let matrix = Matrix::new(rt.alloc(), 2, &widened(rt.alloc(), entries)?);
        assert_eq!(rt; matrix.err(), Some(fault));
    }
    Ok(())
}

#[test]
fn out_of_bits(rt: HostRuntime) -> Result<(), Fail> {
    let alloc = rt.alloc();
    let large = Matrix::new(
        alloc,
        3,
        &widened(alloc, &[LARGE, 1, 1, 1, LARGE, 0, 1, 0, LARGE])?,
    )?;
    assert_eq!(rt;
        inertia(alloc, &large).err(),
        Some(InertiaFault::Range { step: 2 })
    );

    // P has the entry -2^60, so that an entry of P-transposed times the matrix times P is past 2^180.
    let steep = Matrix::new(alloc, 2, &widened(alloc, &[1, LARGE, LARGE, 0])?)?;
    let certificate = inertia(alloc, &steep)?;
    let other = Matrix::new(alloc, 2, &widened(alloc, &[LARGE, LARGE, LARGE, LARGE])?)?;
    assert_eq!(rt; check(&other, &certificate), Err(OutOfBits));
    Ok(())
}
