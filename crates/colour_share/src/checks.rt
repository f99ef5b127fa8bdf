//! What is looked at before the colourings: how many there are, and the inverses that their projectors need.

ghost use Rattle.std.specs.Prelude.{◌≡◌, ◌^◌, ◌<◌, ◌≤◌, ℕ, length, IfOk, IfErr, OnOk, MatchOption};
ghost use Rattle.root_quantum.specs.Colours.{form_colours, greatest_colour};
ghost use Rattle.root_quantum.specs.Parameters.{top_colour};
ghost use Rattle.wenzl_table.specs.Inverses.{AreCoprime, IsFirstCommon};
ghost use Rattle.kirby_terms.specs.Terms.{colouring_total, HasInverses};
ghost use Rattle.colour_share.specs.Sums.{IsRefused};

use crate::fault::SumFault;
use crate::limits::MOST_COLOURINGS;
use kirby_terms::colour_count;
use planar_check::Framed;
use root_quantum::{Form, Params};

/// How many colourings so many components have, over the colours of the form: none where these are more than 65,536. It takes no
/// memory.
pub fn colouring_total(params: &Params, components: u32) -> Option<u64>
    ensures { MatchOption result (MOST_COLOURINGS < length (form_colours params.now) ^ components)
        (λ total. (total ≡ length (form_colours params.now) ^ components) × (total ≤ MOST_COLOURINGS)) }
{
    match u64::from(colour_count(params)).checked_pow(components) {
        Some(total) if total <= MOST_COLOURINGS => Some(total),
        _ => None,
    }
}

/// The greatest colour of the form, at most 8.
pub(crate) fn greatest_colour(params: &Params) -> u32
    ensures colour { result ≡ greatest_colour params.now }
    ensures few { result ≤ 8 }
    ensures within { result ≤ top_colour params.now }
{
    match params.form() {
        Form::All => params.level() - 2,
        Form::Even => params.level() - 3,
    }
}

/// Whether none of `Delta_1` to `Delta_(n-1)` shares a factor with m, or the first that does.
fn check_inverses(params: &Params, n: u32) -> Result<(), SumFault>
    requires { n ≤ 8 }
    ensures coprime { OnOk result (AreCoprime params.now n) }
    ensures common { IfErr result (λ fault. (index common : ℕ) × (fault ≡ SumFault.NoInverse index common) × IsFirstCommon params.now n index common) }
{
    for index in 1..n {
        if let Err(fault) = params.inverse_delta(index) {
            return Err(SumFault::NoInverse {
                index,
                common: fault.gcd,
            });
        }
    }
    Ok(())
}

/// How many colourings there are, where these are few and the projectors exist that they need.
pub(crate) fn check(params: &Params, framed: &Framed) -> Result<u64, SumFault>
    ensures total { IfOk result (λ total. total ≡ colouring_total params.now framed.now) }
    ensures few { IfOk result (λ total. total ≤ MOST_COLOURINGS) }
    ensures inverses { OnOk result (HasInverses params.now framed.now) }
    ensures refused { IfErr result (IsRefused params.now framed.now) }
{
    let components = framed.planar().components();
    let Some(total) = colouring_total(params, components) else {
        return Err(SumFault::TooMany {
            components,
            limit: MOST_COLOURINGS as u32,
        });
    };
    if components > 0 {
        check_inverses(params, greatest_colour(params))?;
    }
    Ok(total)
}
