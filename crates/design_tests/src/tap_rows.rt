//! Taps, compared with taps that are computed in the plainest way.

use crate::made::Numbers;
use crate::plain_taps::plain_taps;
use sdf_filters::{Band, FilterFault, FilterSpec, taps_of};
use std::alloc::Global;
use std::test::Fail;
use test_texts::says;

/// Returns the size of a tap of over 16 bits, or 0 for another fault.
fn size_in(fault: FilterFault) -> u32 {
    match fault {
        FilterFault::TapTooLarge { size } => size,
        _ => 0,
    }
}

/// Adds a filter whose taps differ from the plain ones. Returns the number of plain taps.
fn push_other(alloc: Global, text: &mut String, wanted: FilterSpec) -> Result<usize, Fail> {
    let plain = plain_taps(alloc, wanted)?;
    let taps = taps_of(alloc, wanted).map_err(size_in);
    if plain != taps {
        writeln!(text, "{wanted:?}")?;
    }
    Ok(plain.map_or(0, |taps| taps.len()))
}

/// Returns the filters from `seed` whose taps differ from the plain ones, and whether there were many taps.
fn others(alloc: Global, seed: u64, filters: u32) -> Result<String, Fail> {
    let mut text = String::new(alloc);
    let mut numbers = Numbers::new(seed);
    let mut taps = 0usize;
    for _ in 0..filters {
        let wanted = numbers.wanted();
        taps = taps.saturating_add(push_other(alloc, &mut text, wanted)?);
    }
    if taps > 5000 {
        text.push_str("many taps")?;
    }
    Ok(text)
}

/// Tests that of two equally late taps at the same distance from the middle the earlier one moves. Also tests that the
/// middle tap keeps taps symmetric.
#[test]
fn taps_as_plainly(rt: HostRuntime) -> Result<(), Fail> {
    says(others(rt.alloc(), 5, 60), "many taps")
}

/// Returns the number of taps of each low-pass, and those with other taps than the plain ones. A row has the rate,
/// `pass`, `stop`, the attenuation, `up` and `shift`.
fn low_passes(alloc: Global, rows: &[(u32, u32, u32, u32, u32, u32)]) -> Result<String, Fail> {
    let mut text = String::new(alloc);
    for &(rate, pass, stop, attenuation, up, shift) in rows {
        let wanted = FilterSpec {
            rate,
            band: Band::Low { pass, stop },
            attenuation,
            up,
            shift,
        };
        let taps = push_other(alloc, &mut text, wanted)?;
        write!(text, "{taps} ")?;
    }
    Ok(text)
}

/// Low-passes whose rounded taps sum to far less than the unit.
const FAR: &[(u32, u32, u32, u32, u32, u32)] = &[
    (480_000, 0, 500, 8, 1, 15),
    (480_000, 0, 450, 8, 1, 14),
    (480_000, 0, 900, 8, 4, 12),
    (480_000, 0, 3000, 8, 64, 9),
];

/// Low-passes in which a step must choose between equally late taps at different distances from the middle.
const TIES: &[(u32, u32, u32, u32, u32, u32)] = &[
    (44_100, 3644, 3706, 15, 3, 15),
    (48_000, 3978, 4022, 9, 3, 12),
    (1000, 249, 251, 10, 3, 12),
    (4_000_000, 993_789, 1_006_211, 9, 1, 12),
    (128, 15, 17, 15, 1, 10),
];

/// Tests filters in which each tap moves many times. Of two equally late taps, the one nearer to the middle moves.
#[test]
fn many_steps_as_plainly(rt: HostRuntime) -> Result<(), Fail> {
    says(low_passes(rt.alloc(), FAR), "5 5 4 64 ")?;
    says(low_passes(rt.alloc(), TIES), "351 81 75 25 33 ")
}

/// Tests that each tap meets all others in the tree. For up to 64 taps, or up to 8 steps, each step looks at all taps
/// instead. The phases here have 63 taps and more, and some have fewer steps, and some more.
#[test]
fn trees_as_plainly(rt: HostRuntime) -> Result<(), Fail> {
    let mut text = String::new(rt.alloc());
    let mut numbers = Numbers::new(6);
    for width in [568, 562, 553, 545, 534, 250] {
        for _ in 0..8 {
            let pass = numbers.below(200_000);
            let wanted = FilterSpec {
                rate: 480_000,
                band: Band::Low {
                    pass,
                    stop: pass.saturating_add(width),
                },
                attenuation: 9,
                up: 1,
                shift: 12,
            };
            push_other(rt.alloc(), &mut text, wanted)?;
        }
    }
    says(Ok(text), "")
}

/// Adds a word for a filter that has a tap of over 16 bits, and the filter if another size is named.
fn push_size(alloc: Global, text: &mut String, band: Band) -> Result<(), Fail> {
    let wanted = FilterSpec {
        rate: 48_000,
        band,
        attenuation: 60,
        up: 4,
        shift: 15,
    };
    push_other(alloc, text, wanted)?;
    if plain_taps(alloc, wanted)?.is_err_and(|size| size > 0) {
        text.push_str("too large ")?;
    }
    Ok(())
}

/// Tests the sizes of taps of over 16 bits, also after one more tap in each phase was tried.
#[test]
fn sizes_as_plainly(rt: HostRuntime) -> Result<(), Fail> {
    let mut text = String::new(rt.alloc());
    for (pass, stop) in [(9_000, 12_000), (12_000, 18_000), (20_000, 23_000)] {
        push_size(rt.alloc(), &mut text, Band::Low { pass, stop })?;
        let band = Band::Middle {
            low_stop: 500,
            low_pass: 3_500,
            pass,
            stop,
        };
        push_size(rt.alloc(), &mut text, band)?;
    }
    says(
        Ok(text),
        "too large too large too large too large too large too large ",
    )
}
