//! The values of arguments.

ghost use Rattle.std.specs.Prelude.{◌≡◌, ◌≤◌, ℕ, List, IfSome, Some};
ghost use Rattle.clap.specs.Words.{found_of};
ghost use Rattle.sdf_options.specs.Limits.{AreWithinLimits};
ghost use Rattle.sdf_cli.specs.Batches.{AreOptionsOf, ArePlanOptionsOf, IsNumberOf, IsParallelOf, IsWhyOf};
ghost use Rattle.sdf_cli.specs.Limits.{IsParallelWorkers};

use crate::requests::{Format, ParallelWorkers, Picture, Why};
use clap::ArgMatches;
use sdf_filters::Band;
use sdf_limits::{MAX_BLOCKING, MAX_PATIENCE, MAX_WORKERS};
use sdf_options::{Options, PLACEMENTS, POLICIES, Placement, Policy, RUNNERS, Runner};

/// Returns the number of the argument `id`. The parser of the option already enforces the limits, so none is lost here.
pub(crate) fn number_of(matches: &ArgMatches<'_>, id: &str, least: u32, most: u32) -> Option<u32>
    ensures within { IfSome result (λ n. (least ≤ n) × (n ≤ most)) }
    ensures number { IfSome result (IsNumberOf (found_of matches.now) id.now) }
    ensures each { (n : ℕ) → least ≤ n → n ≤ most → IsNumberOf (found_of matches.now) id.now n → result ≡ Some n }
{
    match matches.get_one::<u32>(id) {
        Some(number) if least <= number && number <= most => Some(number),
        _ => None,
    }
}

/// A value of an option, which a word names.
trait Named: Copy {
    ghost bytes: { Self → List ℕ };

    /// Returns the word for this value.
    fn word(self) -> &'static str
        ensures { result.now ≡ bytes self };
}

impl Named for Policy {
    ghost use Rattle.sdf_options.specs.Words.{policy_word};

    ghost bytes = { policy_word };

    fn word(self) -> &'static str {
        Policy::word(self)
    }
}

impl Named for Placement {
    ghost use Rattle.sdf_options.specs.Words.{placement_word};

    ghost bytes = { placement_word };

    fn word(self) -> &'static str {
        Placement::word(self)
    }
}

impl Named for Runner {
    ghost use Rattle.sdf_options.specs.Words.{runner_word};

    ghost bytes = { runner_word };

    fn word(self) -> &'static str {
        Runner::word(self)
    }
}

/// Returns the first of `values` that `word` names.
fn value_of<T: Named>(values: &[T], word: &str) -> Option<T>
    ensures { IfSome result (λ value. T.bytes value ≡ word.now) }
{
    for value in values {
        if value.word() == word {
            return Some(*value);
        }
    }
    None
}

/// Reads the options of a schedule; the others have their defaults.
pub(crate) fn plan_options_of(matches: &ArgMatches<'_>) -> Option<Options>
    ensures within { IfSome result AreWithinLimits }
    ensures options { IfSome result (ArePlanOptionsOf (found_of matches.now)) }
{
    Some(Options {
        blocking: number_of(matches, "blocking", 1, MAX_BLOCKING)?,
        workers: number_of(matches, "workers", 1, MAX_WORKERS as u32)? as usize,
        policy: value_of(&POLICIES, matches.get_str("policy")?)?,
        placement: value_of(&PLACEMENTS, matches.get_str("placement")?)?,
        ..Options::DEFAULT
    })
}

/// Reads the options of a run.
pub(crate) fn options_of(matches: &ArgMatches<'_>) -> Option<Options>
    ensures within { IfSome result AreWithinLimits }
    ensures options { IfSome result (AreOptionsOf (found_of matches.now)) }
{
    Some(Options {
        runner: value_of(&RUNNERS, matches.get_str("runner")?)?,
        patience: number_of(matches, "patience", 0, MAX_PATIENCE)?,
        ..plan_options_of(matches)?
    })
}

/// Reads when a diagnostic is printed.
pub(crate) fn why_of(matches: &ArgMatches<'_>) -> Why
    ensures { IsWhyOf (found_of matches.now) result }
{
    if matches.get_flag("why") {
        Why::Always
    } else if matches.get_flag("no-why") {
        Why::Never
    } else {
        Why::AtTerminal
    }
}

/// Reads the format of what is printed.
pub(crate) fn format_of(matches: &ArgMatches<'_>) -> Format {
    if matches.get_flag("json") {
        Format::Json
    } else {
        Format::Text
    }
}

/// Reads what is drawn.
pub(crate) fn picture_of(matches: &ArgMatches<'_>) -> Picture {
    if matches.get_flag("dot") {
        Picture::Dot
    } else {
        Picture::Svg
    }
}

/// Reads `--parallel`: its number of workers, or one per processor if it has no value.
pub(crate) fn parallel_of(matches: &ArgMatches<'_>) -> Option<ParallelWorkers>
    ensures within { IfSome result IsParallelWorkers }
    ensures parallel { IsParallelOf (found_of matches.now) result }
{
    if !matches.contains_id("parallel") {
        return None;
    }
    match number_of(matches, "parallel", 1, MAX_WORKERS as u32) {
        Some(workers) => Some(ParallelWorkers::Workers(workers as usize)),
        None => Some(ParallelWorkers::Processors),
    }
}

/// Returns the 32-bit number of the argument `id`.
pub(crate) fn any_number_of(matches: &ArgMatches<'_>, id: &str) -> Option<u32> {
    number_of(matches, id, 0, u32::MAX)
}

/// Reads the band of a filter, with its edges in Hz.
pub(crate) fn band_of(matches: &ArgMatches<'_>) -> Option<Band> {
    let pass = any_number_of(matches, "pass")?;
    let stop = any_number_of(matches, "stop")?;
    match matches.get_str("SHAPE")? {
        "lowpass" => Some(Band::Low { pass, stop }),
        "highpass" => Some(Band::High { stop, pass }),
        "bandpass" => Some(Band::Middle {
            low_stop: any_number_of(matches, "low-stop")?,
            low_pass: any_number_of(matches, "low-pass")?,
            pass,
            stop,
        }),
        _ => None,
    }
}
