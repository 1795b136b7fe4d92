//! Stages of conversions between usual rates, which are cheap ones, and rates without a conversion between them.

use sdf_filters::{Lowpass, Stage, stages};
use std::alloc::Global;
use std::fmt::Write;
use std::process::Abort;
use std::test::Fail;
use test_texts::says;

const RATES: [u32; 11] = [
    8000, 11_025, 16_000, 22_050, 24_000, 32_000, 44_100, 48_000, 88_200, 96_000, 192_000,
];

/// Returns the stages of a conversion, each as `up` and `down`, or the fault.
fn split(alloc: Global, from: u32, to: u32) -> Result<String, Fail> {
    let split = match stages(alloc, from, to, 96) {
        Ok(split) => split,
        Err(fault) => return Ok(format!(in alloc; "{fault:?}")?),
    };
    let mut text = String::new(alloc);
    for stage in &split {
        write!(text, "{}/{} ", stage.up, stage.down)?;
    }
    Ok(text)
}

/// Two rates, and the stages between them or the fault.
const SPLITS: &[(u32, u32, &str)] = &[
    (48_000, 48_000, ""),
    (44_100, 48_000, "8/7 20/21 "),
    (48_000, 44_100, "21/20 7/8 "),
    (192_000, 8000, "1/6 1/2 1/2 "),
    (192_000, 11_025, "3/16 7/16 7/10 "),
    (1, 3_065_857, "37/1 41/1 43/1 47/1 "),
    (0, 8000, "NoRate"),
    (8000, 0, "NoRate"),
    (134, 1, "FactorTooLarge { factor: 67 }"),
];

/// Tests that a split does not just take the least factors, or the greatest ratio first.
#[test]
fn cheap_splits(rt: HostRuntime) -> Result<(), Fail> {
    for (from, to, wanted) in SPLITS {
        says(split(rt.alloc(), *from, *to), wanted)?;
    }
    Ok(())
}

/// Returns the rate after a stage.
fn put(rate: u32, stage: Stage) -> u32 {
    let all = u64::from(rate) * u64::from(stage.up) / u64::from(stage.down);
    (all % 4_294_967_296) as u32
}

/// Tests that no filter of a split has too many taps, and that the split leads to the second rate.
#[test]
fn usual_rates(rt: HostRuntime) -> Result<(), Fail> {
    for from in RATES {
        for to in RATES {
            let lower = from.min(to);
            let pass = (u64::from(lower) * 5 / 11) as u32;
            let mut rate = from;
            for &stage in &stages(rt.alloc(), from, to, 96)? {
                let stop = rate.min(put(rate, stage)).saturating_sub(pass);
                let filter = Lowpass::new(
                    rate.wrapping_mul(stage.up),
                    pass,
                    stop,
                    96,
                    stage.up,
                    15,
                )?;
                assert!(rt; filter.count().is_ok(), "{from} to {to}");
                rate = put(rate, stage);
            }
            assert_eq!(rt; rate, to);
        }
    }
    Ok(())
}
