//! The steps of the elimination.

ghost use Rattle.std.specs.Prelude.{◌≡◌, ◌<◌, true, false, IfOk, OnOk, IfErr};
ghost use Rattle.inertia_laws.specs.Matrices.{is_zero};
ghost use Rattle.inertia_laws.specs.Elimination.{exchange, add_place, clear, prepared, finished, step};
ghost use Rattle.inertia_laws.specs.Agreement.{AgreeAll};
ghost use Rattle.inertia_laws.specs.Range.{add_place_fits, clear_fits, prepared_fits, finished_fits, step_fits};
ghost use Rattle.inertia_cert.specs.Grids.{at, CausedBy};
ghost use Rattle.inertia_cert.specs.Eliminations.{size_of, state};

use crate::clearing::{ClearedColumns, ClearedMatrix, GatheredRow};
use crate::elimination::Elimination;
use crate::fault::FormFault;
use crate::places::first_not_zero;
use crate::rules::{Change, Changed, Exchanged};
use crate::tabulate::tabulate;
use std::alloc::Global;

/// Part 1: the places exchanged in rows and columns of M, columns of P and rows of Q.
fn exchange(
    alloc: Global,
    now: &Elimination,
    first: usize,
    second: usize,
) -> Result<Elimination, FormFault>
    requires first { first < size_of now.now }
    requires second { second < size_of now.now }
    ensures sized { IfOk result (λ next. size_of next ≡ size_of now.now) }
    ensures made { IfOk result (λ next. AgreeAll (size_of now.now) (state next) (exchange first second (state now.now))) }
    ensures refused { IfErr result (λ fault. CausedBy fault true) }
{
    let size = now.matrix.size;
    let rule = Exchanged {
        grid: &now.matrix,
        first,
        second,
        rows: true,
        columns: true,
    };
    let matrix = tabulate(alloc, size, &rule)?;
    let rule = Exchanged {
        grid: &now.p,
        first,
        second,
        rows: false,
        columns: true,
    };
    let p = tabulate(alloc, size, &rule)?;
    let rule = Exchanged {
        grid: &now.q,
        first,
        second,
        rows: true,
        columns: false,
    };
    let q = tabulate(alloc, size, &rule)?;
    Ok(Elimination { matrix, p, q })
}

/// Part 2: the place `from` added to the place `to` in columns and then rows of M and in columns of P,
/// and the row `to` of Q taken from its row `from`.
fn add_place(
    alloc: Global,
    now: &Elimination,
    to: usize,
    from: usize,
) -> Result<Elimination, FormFault>
    requires to { to < size_of now.now }
    requires from { from < size_of now.now }
    ensures sized { IfOk result (λ next. size_of next ≡ size_of now.now) }
    ensures made { IfOk result (λ next. AgreeAll (size_of now.now) (state next) (add_place to from (state now.now))) }
    ensures fit { OnOk result (add_place_fits (size_of now.now) to from (state now.now) ≡ true) }
    ensures refused { IfErr result (λ fault. CausedBy fault (add_place_fits (size_of now.now) to from (state now.now))) }
{
    let size = now.matrix.size;
    let rule = Changed {
        grid: &now.matrix,
        change: Change::ColumnAdded,
        to,
        from,
    };
    let columns = tabulate(alloc, size, &rule)?;
    let rule = Changed {
        grid: &columns,
        change: Change::RowAdded,
        to,
        from,
    };
    let matrix = tabulate(alloc, size, &rule)?;
    let rule = Changed {
        grid: &now.p,
        change: Change::ColumnAdded,
        to,
        from,
    };
    let p = tabulate(alloc, size, &rule)?;
    let rule = Changed {
        grid: &now.q,
        change: Change::RowTaken,
        to,
        from,
    };
    let q = tabulate(alloc, size, &rule)?;
    Ok(Elimination { matrix, p, q })
}

/// Part 4: the row and the column of the pivot cleared.
fn clear(alloc: Global, now: &Elimination, pivot: usize) -> Result<Elimination, FormFault>
    requires in_range { pivot < size_of now.now }
    requires not_zero { is_zero (at now.now.matrix pivot pivot).num ≡ false }
    ensures sized { IfOk result (λ next. size_of next ≡ size_of now.now) }
    ensures made { IfOk result (λ next. AgreeAll (size_of now.now) (state next) (clear (size_of now.now) pivot (state now.now))) }
    ensures fit { OnOk result (clear_fits (size_of now.now) pivot (state now.now) ≡ true) }
    ensures refused { IfErr result (λ fault. CausedBy fault (clear_fits (size_of now.now) pivot (state now.now))) }
{
    let size = now.matrix.size;
    let before = &now.matrix;
    let rule = ClearedMatrix {
        matrix: before,
        pivot,
    };
    let matrix = tabulate(alloc, size, &rule)?;
    let rule = ClearedColumns {
        matrix: before,
        grid: &now.p,
        pivot,
    };
    let p = tabulate(alloc, size, &rule)?;
    let rule = GatheredRow {
        matrix: before,
        grid: &now.q,
        pivot,
    };
    let q = tabulate(alloc, size, &rule)?;
    Ok(Elimination { matrix, p, q })
}

/// Parts 1 and 2 of a step: the state in which the diagonal entry isn't 0, if there is one.
fn prepare(alloc: Global, now: Elimination, place: usize) -> Result<Elimination, FormFault>
    requires { place < size_of now }
    ensures sized { IfOk result (λ next. size_of next ≡ size_of now) }
    ensures made { IfOk result (λ next. AgreeAll (size_of now) (state next) (prepared (size_of now) place (state now))) }
    ensures fit { OnOk result (prepared_fits (size_of now) place (state now) ≡ true) }
    ensures refused { IfErr result (λ fault. CausedBy fault (prepared_fits (size_of now) place (state now))) }
{
    if now.matrix.at(place, place).num != 0 {
        return Ok(now);
    }
    if let Some(other) = first_not_zero(&now.matrix, place, true) {
        return exchange(alloc, &now, place, other);
    }
    if let Some(other) = first_not_zero(&now.matrix, place, false) {
        return add_place(alloc, &now, place, other);
    }
    Ok(now)
}

/// Parts 3 and 4 of a step.
fn finish(alloc: Global, now: Elimination, place: usize) -> Result<Elimination, FormFault>
    requires { place < size_of now }
    ensures sized { IfOk result (λ next. size_of next ≡ size_of now) }
    ensures made { IfOk result (λ next. AgreeAll (size_of now) (state next) (finished (size_of now) place (state now))) }
    ensures fit { OnOk result (finished_fits (size_of now) place (state now) ≡ true) }
    ensures refused { IfErr result (λ fault. CausedBy fault (finished_fits (size_of now) place (state now))) }
{
    if now.matrix.at(place, place).num == 0 {
        return Ok(now);
    }
    clear(alloc, &now, place)
}

/// One step, at a place counted from 0.
pub(crate) fn step(alloc: Global, now: Elimination, place: usize) -> Result<Elimination, FormFault>
    requires { place < size_of now }
    ensures sized { IfOk result (λ next. size_of next ≡ size_of now) }
    ensures made { IfOk result (λ next. AgreeAll (size_of now) (state next) (step (size_of now) place (state now))) }
    ensures fit { OnOk result (step_fits (size_of now) place (state now) ≡ true) }
    ensures refused { IfErr result (λ fault. CausedBy fault (step_fits (size_of now) place (state now))) }
{
    let ready = prepare(alloc, now, place)?;
    finish(alloc, ready, place)
}
