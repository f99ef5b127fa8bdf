//! What is looked at before the colourings: how many there are, and the inverses that their projectors need.

ghost use Rattle.std.specs.Prelude.{◌≡◌, ◌-◌, ◌^◌, ◌<◌, ◌≤◌, None, Some, IfErr, OnOk};
ghost use Rattle.std.specs.Option.{option_or};
ghost use Rattle.wenzl_table.specs.Inverses.{AreCoprime};
ghost use Rattle.tetra_sum.specs.Refusals.{count_refusal, delta_refusal, inverse_refusal};

use crate::fault::TetraFault;
use crate::limits::MOST_COLOURINGS;
use root_quantum::Params;

/// Whether so many labels have at most 65,536 colourings by 0 to r-2.
fn check_count(r: u32, labels: u32) -> Result<(), TetraFault>
    requires { 3 ≤ r }
    ensures few { OnOk result ((r - 1) ^ labels ≤ MOST_COLOURINGS) }
    ensures none { OnOk result (count_refusal r labels ≡ None) }
    ensures refused { IfErr result (λ fault. count_refusal r labels ≡ Some fault) }
{
    match u64::from(r - 1).checked_pow(labels) {
        Some(total) if total <= u64::from(MOST_COLOURINGS) => Ok(()),
        _ => Err(TetraFault::TooMany {
            labels,
            limit: MOST_COLOURINGS,
        }),
    }
}

/// Whether none of `Delta_1` to `Delta_(r-3)` shares a factor with m, or the first that does.
fn check_inverses(params: &Params) -> Result<(), TetraFault>
    ensures coprime { OnOk result (AreCoprime params.now (params.now.level - 2)) }
    ensures none { OnOk result (delta_refusal params.now ≡ None) }
    ensures refused { IfErr result (λ fault. delta_refusal params.now ≡ Some fault) }
{
    for index in 1..params.level() - 2 {
        if let Err(fault) = params.inverse_delta(index) {
            return Err(TetraFault::NoInverse {
                index,
                common: fault.gcd,
            });
        }
    }
    Ok(())
}

/// Whether so many labels have few colourings, and the projectors exist that these need.
pub(crate) fn check(params: &Params, labels: u32) -> Result<(), TetraFault>
    ensures few { OnOk result ((params.now.level - 1) ^ labels ≤ MOST_COLOURINGS) }
    ensures coprime { OnOk result (0 < labels → AreCoprime params.now (params.now.level - 2)) }
    ensures count { OnOk result (count_refusal params.now.level labels ≡ None) }
    ensures inverses { OnOk result (inverse_refusal params.now labels ≡ None) }
    ensures refused { IfErr result (λ fault. option_or (count_refusal params.now.level labels) (inverse_refusal params.now labels) ≡ Some fault) }
{
    check_count(params.level(), labels)?;
    if labels > 0 {
        check_inverses(params)?;
    }
    Ok(())
}
