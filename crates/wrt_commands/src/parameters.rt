//! Parameters from the numbers of a command.

ghost use Rattle.std.specs.Prelude.{◌≡◌, ◌↔◌, ◌≤◌, Err, IfOk, min};
ghost use Rattle.root_quantum.specs.Refusals.{IsRefused};
ghost use Rattle.root_quantum.specs.declared.fault.ParamFault.{ParamFault};
ghost use Rattle.wrt_commands.specs.Parameters.{against_order, parameters_of};

use crate::parameters_refusal::ParametersRefusal;
use root_quantum::{Form, ParamFault, Params};
use wrt_request::Numbers;

/// The parameters m, A and r of the form.
fn params_of(m: u64, a: u64, r: u32, form: Form) -> Result<Params, ParamFault>
    ensures made { IfOk result (λ p. (p.modulus ≡ m) × (p.root ≡ a) × (p.level ≡ r) × (p.form ≡ form)) }
    ensures refused { (fault : ParamFault) → (result ≡ Err fault) ↔ IsRefused form m a r fault }
{
    match form {
        Form::All => Params::new(m, a, r),
        Form::Even => Params::new_even(m, a, r),
    }
}

/// The reason against the order of A in the form, at a level up to 10.
fn order_refusal(form: Form, level: u32, found: Option<u32>) -> ParametersRefusal
    requires { level ≤ 10 }
    ensures { result ≡ against_order form level found }
{
    match form {
        Form::All => ParametersRefusal::Order {
            found,
            wanted: 4 * level,
        },
        Form::Even => ParametersRefusal::EvenOrder {
            found,
            greater: 4 * level,
            lesser: 2 * level,
        },
    }
}

/// The parameters that the numbers are in the form, or the first reason against them. A level past 32 bits is out of
/// range. It takes no memory.
pub fn read_parameters(numbers: &Numbers, form: Form) -> Result<Params, ParametersRefusal>
    ensures { result ≡ parameters_of form numbers.now }
{
    let level = u32::try_from(numbers.level).unwrap_or(u32::MAX);
    match params_of(numbers.modulus, numbers.root, level, form) {
        Ok(params) => Ok(params),
        Err(ParamFault::Modulus) => Err(ParametersRefusal::Modulus),
        Err(ParamFault::Root) => Err(ParametersRefusal::Root),
        Err(ParamFault::Level) => Err(ParametersRefusal::Level),
        Err(ParamFault::EvenLevel) => Err(ParametersRefusal::EvenLevel),
        Err(ParamFault::Order { found }) => Err(order_refusal(form, level.min(10), found)),
    }
}
