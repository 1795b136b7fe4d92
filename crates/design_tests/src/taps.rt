//! Taps, compared with the taps that `scripts/coefficients` writes in Python's own arithmetic.

use sdf_filters::{FilterFault, Lowpass, coefficient_text};
use std::alloc::Global;
use std::test::Fail;
use test_texts::says;

/// Returns a number by which lists of taps are compared.
fn checksum(taps: &[i32]) -> u32 {
    let mut sum = 0u32;
    for tap in taps {
        sum = sum.wrapping_mul(31).wrapping_add(tap.cast_unsigned());
    }
    sum
}

/// Returns the number of taps of a low-pass, and their checksum.
fn summed(alloc: Global, filter: Result<Lowpass, FilterFault>) -> Result<String, Fail> {
    let filter = filter?;
    let taps = filter.taps(alloc, filter.count()?)?;
    Ok(format!(in alloc; "{} {}", taps.len(), checksum(&taps))?)
}

/// Returns the taps of a low-pass, and its taps if there are five of them. Tests that both the sinc and its window are
/// applied.
fn few_taps(alloc: Global) -> Result<String, Fail> {
    let filter = Lowpass::new(8000, 1000, 3000, 40, 1, 15)?;
    let taps = filter.taps(alloc, filter.count()?)?;
    let five = filter.taps(alloc, 5)?;
    Ok(format!(in alloc; "{taps:?} {five:?}")?)
}

/// Returns the taps of a low-pass as a text, and the taps of its high-pass. Tests that a row has twelve values and that
/// no comma follows the last one. Also tests that the high-pass is not just the negated low-pass, and that its
/// middle is in its place.
fn low_and_high(alloc: Global) -> Result<String, Fail> {
    let filter = Lowpass::new(8000, 1000, 2500, 40, 1, 15)?;
    let taps = filter.taps(alloc, filter.count()?)?;
    let high = filter.highpass(alloc, 13)?;
    let text = coefficient_text(alloc, &taps)?;
    Ok(format!(in alloc; "{text}{high:?}")?)
}

/// Returns the taps of a band-pass. Tests that it stops what the narrow low-pass passes.
fn band(alloc: Global) -> Result<String, Fail> {
    let wide = Lowpass::new(8000, 1000, 3000, 40, 1, 15)?;
    let narrow = Lowpass::new(8000, 400, 1000, 40, 1, 15)?;
    let taps = wide.bandpass(alloc, &narrow, 9)?;
    Ok(format!(in alloc; "{taps:?}")?)
}

/// Tests taps. The filters of many taps show that taps are not rounded down, and not moved from the first one on until
/// the sum is exact. In the last of these filters each tap moves once, and ten pairs once more, which shows that steps
/// are symmetric.
#[test]
fn taps(rt: HostRuntime) -> Result<(), Fail> {
    let alloc = rt.alloc();
    says(
        few_taps(alloc),
        "[261, -763, -1830, 4204, 14512, 14512, 4204, -1830, -763, 261] [405, 7584, 16790, 7584, 405]",
    )?;
    says(
        summed(alloc, Lowpass::new(44_100, 2000, 2900, 80, 1, 15)),
        "247 3407414156",
    )?;
    says(
        summed(alloc, Lowpass::new(336_000, 20_000, 24_000, 96, 7, 15)),
        "518 2609105664",
    )?;
    says(
        summed(alloc, Lowpass::new(88_200, 20_000, 24_100, 96, 2, 15)),
        "134 3010014208",
    )?;
    says(
        summed(alloc, Lowpass::new(384_000, 20_000, 28_000, 60, 8, 12)),
        "176 832298496",
    )?;
    says(
        summed(alloc, Lowpass::new(336_000, 6048, 29_561, 50, 1, 15)),
        "43 826095120",
    )?;
    says(
        low_and_high(alloc),
        "format = 1\nvalues = [\n  237, 359, -920, -1990, 1698, 9832, 14336, 9832, 1698, -1990, -920, 359,\n  237\n]\n\
         [-237, -359, 920, 1990, -1698, -9832, 18432, -9832, -1698, 1990, 920, -359, -237]",
    )?;
    says(
        band(alloc),
        "[-1107, -3587, -3993, 3759, 9856, 3759, -3993, -3587, -1107]",
    )
}

/// Returns the fault of a low-pass, or nothing if there is none.
fn refusal(alloc: Global, filter: Result<Lowpass, FilterFault>) -> Result<String, Fail> {
    match filter {
        Ok(_) => Ok(String::new(alloc)),
        Err(fault) => Ok(fault.to_string(alloc)?),
    }
}

/// Returns the fault of a low-pass with these values at 8000 Hz, or nothing if there is none.
fn refusal_at(alloc: Global, up: u32, shift: u32, attenuation: u32) -> Result<String, Fail> {
    refusal(
        alloc,
        Lowpass::new(8000, 1000, 3000, attenuation, up, shift),
    )
}

/// Returns the number of taps of a steep low-pass, one tap with a shift of 15, and one tap with a shift of 14. The
/// first two are faults.
fn one_tap(alloc: Global) -> Result<String, Fail> {
    let steep = Lowpass::new(48_000, 1000, 1001, 40, 1, 15)?.count();
    let large = Lowpass::new(8000, 1000, 3000, 40, 1, 15)?
        .taps(alloc, 1)
        .err();
    let soft = Lowpass::new(8000, 1000, 3000, 40, 1, 14)?.taps(alloc, 1)?;
    Ok(format!(in alloc; "{steep:?} {large:?} {soft:?}")?)
}

/// Tests the values that faults name, the limits of values, and a tap of 17 bits.
#[test]
fn faults(rt: HostRuntime) -> Result<(), Fail> {
    let alloc = rt.alloc();
    says(
        refusal_at(alloc, 0, 15, 40),
        "--up is 0: it must be 1 to 64",
    )?;
    says(
        refusal_at(alloc, 65, 15, 40),
        "--up is 65: it must be 1 to 64",
    )?;
    says(
        refusal_at(alloc, 1, 16, 40),
        "--shift is 16: it must be 0 to 15",
    )?;
    says(
        refusal_at(alloc, 1, 15, 201),
        "--attenuation is 201 dB: it must be 0 to 200",
    )?;
    says(
        refusal(alloc, Lowpass::new(8000, 3000, 3000, 40, 1, 15)),
        "--pass is 3000 Hz and --stop is 3000 Hz: lower --pass or raise --stop",
    )?;
    says(
        refusal(alloc, Lowpass::new(8000, 1000, 4001, 40, 1, 15)),
        "--stop is 4001 Hz, above half of --rate, which is 8000 Hz: lower --stop or raise --rate",
    )?;
    says(
        refusal(alloc, Lowpass::new(8000, 1000, 4000, 200, 64, 0)),
        "",
    )?;
    says(
        one_tap(alloc),
        "Err(TooManyTaps { taps: 107154 }) Some(TapTooLarge { size: 32768 }) [16384]",
    )
}
