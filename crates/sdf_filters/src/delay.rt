//! The delay of a converter.

ghost use Rattle.std.specs.Prelude.{◌≡◌, ◌*◌, ◌<◌, ◌≤◌, ◌^◌, length};
ghost use Rattle.sdf_filters.specs.Delays.{stage_delay, delay_before, delay};

use crate::stage::StageFile;

/// Returns the delay of a stage's filter in thousandths of a frame at the rate `to`, rounded down.
fn stage_delay(to: u32, file: &StageFile) -> u64
    ensures delay { result ≡ stage_delay to file.now }
    ensures few { result < 2 ^ 51 }
{
    let half = u64::from(file.taps.saturating_sub(1)) * 500;
    half * u64::from(to) / u64::from(file.rate.max(1))
}

/// Returns the delay of all stages in thousandths of a frame at the rate `to`.
fn stages_delay(to: u32, files: &[StageFile]) -> u128
    ensures delay { result ≡ delay_before to files.now (length files.now) }
    ensures few { result ≤ 2 ^ 51 * length files.now }
{
    let mut sum = 0;
    for place in 0..files.len() {
        sum += u128::from(stage_delay(to, &files[place]));
    }
    sum
}

/// Returns the delay of a converter in frames of its output, whose rate is `to`. It is rounded to the nearest frame.
pub(crate) fn delay(to: u32, files: &[StageFile]) -> u128
    ensures { result ≡ delay to files.now }
{
    (stages_delay(to, files) + 500) / 1000
}
