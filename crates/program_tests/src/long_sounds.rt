//! Tests of a sound that is long: what is written of it.

use crate::commands::given_of;
use crate::shelf::{Shelf, places};
use sdf_cli::arguments::Arguments;
use sdf_io::files::MAX_BYTES;
use sdf_io::world::World;
use sdf_program::program::serve;
use std::sync::Mutex;
use std::test::Fail;
use std::thread::Threads;
use std::time::Clock;
use test_devices::{Comparing, LongSound};
use test_texts::says;

/// The frames of the sound. It has 12,000,000 bytes, and none of them is kept by the streams of the test.
const FRAMES: u32 = 6_000_000;

/// Serves `given` with the sound on standard input, and returns the exit status and what is printed on standard error.
fn served<T: Threads + AllocGlobal + Clock + Clone + Drop + Sync>(
    rt: &T,
    places: &[Mutex<Vec<u8>>],
    given: Arguments,
    out: &mut Comparing,
) -> Result<String, Fail> {
    let world = World {
        storage: &Shelf { places },
        threads: rt,
        most: MAX_BYTES,
        terminal: false,
        dumb: false,
        why: false,
    };
    let mut stdin = LongSound::new(rt.alloc(), FRAMES, 0)?;
    let mut err = Vec::new(rt.alloc());
    let status = serve(&world, &mut stdin, out, &mut err, Ok(given));
    let text = str::from_utf8(&err)?;
    format!(in rt.alloc(); "{status} {text}").map_err(Fail::from)
}

/// Serves `line`, and reports whether what is written is the sound.
fn told<T: Threads + AllocGlobal + Clock + Clone + Drop + Sync>(
    rt: &T,
    line: &str,
) -> Result<String, Fail> {
    let alloc = rt.alloc();
    let places = places(alloc)?;
    let given = given_of(alloc, line, "")?;
    let mut out = Comparing::with(LongSound::new(alloc, FRAMES, 0)?);
    let text = served(rt, &places, given, &mut out)?;
    let same = out.is_same();
    format!(in alloc; "{text}{same}").map_err(Fail::from)
}

/// Tests a sound of 12,000,000 bytes. Refuses a reader that fails after 10,000,000 bytes.
#[test]
fn a_long_sound_is_read_whole(rt: HostRuntime) -> Result<(), Fail> {
    says(told(&rt, "run plain.toml - - --parallel 2"), "0 true")
}
