//! The workers, as `--workers` says them.

ghost use Rattle.std.specs.Prelude.{◌≡◌, ◌≤◌, IfOk, option_map};
ghost use Rattle.wrt_request.specs.Workers.{workers_of};

use crate::fault::PartsRefusal;
use crate::number::decimal;

/// How many workers the value of `--workers` says: 1 to 64, and 1 without the option. It takes no memory.
pub(crate) fn read_workers(value: Option<&str>) -> Result<u32, PartsRefusal>
    ensures value { result ≡ workers_of (option_map (λ s. s.now) value.entry) }
    ensures in_range { IfOk result (λ workers. (1 ≤ workers) × (workers ≤ 64)) }
{
    let Some(text) = value else {
        return Ok(1);
    };
    match decimal(text) {
        Some(workers @ 1..=64) => Ok(workers as u32),
        _ => Err(PartsRefusal::Workers),
    }
}
