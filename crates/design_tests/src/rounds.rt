//! Rounds in which a tap is moved twice. No filter that was tried has one, so the values are made up.

use sdf_filters::settle;
use std::test::Fail;

/// Real values, the total of four taps that begin at 0, and the taps at that total.
const ROWS: &[([f64; 4], i64, [i32; 4])] = &[
    ([3.0, 0.0, 0.0, 3.0], 4, [2, 0, 0, 2]),
    ([-3.0, 0.0, 0.0, -3.0], -4, [-2, 0, 0, -2]),
    ([0.0, 1.0, 1.0, 0.0], 4, [0, 2, 2, 0]),
    ([0.0, -1.0, -1.0, 0.0], -4, [0, -2, -2, 0]),
    ([0.0, 0.75, 0.75, 0.0], 4, [1, 1, 1, 1]),
];

/// Tests that a round does not move each tap once if the next step of one is sooner than the first step of another.
#[test]
fn taps_move_twice(_rt: HostRuntime) -> Result<(), Fail> {
    for &(reals, total, wanted) in ROWS {
        let mut taps = [0; 4];
        settle(&mut taps, &reals, 1, total)?;
        if taps != wanted {
            return Err(Fail::new(format_args!("{reals:?}: {taps:?}")));
        }
    }
    Ok(())
}
