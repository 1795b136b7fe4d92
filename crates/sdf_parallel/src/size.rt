//! The length of the parts of a run.

ghost use Rattle.sdf_warm_up.specs.Warm.{IsLeast};
ghost use Rattle.sdf_parallel.specs.Sizes.{IsPartSize};
ghost use Rattle.std.specs.Prelude.{◌<◌};

/// The least length of a part, in warm-ups. With it, less than an eighth of the work is done twice.
const LEAST_WARM_UPS: u32 = 8;

/// Returns the length of a part in periods, if `periods` are split into at most `parts` parts with a warm-up of `warm`
/// periods each.
pub fn part_size(periods: u32, parts: u32, warm: u32) -> u32
    requires { 0 < parts }
    ensures { IsLeast (IsPartSize periods parts warm) result }
{
    periods
        .div_ceil(parts)
        .max(warm.saturating_mul(LEAST_WARM_UPS))
        .max(1)
}
