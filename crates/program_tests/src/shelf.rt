//! Files in memory.

use crate::costs::{COMMENTED, SPACED};
use crate::files::{FILTERED, PLAIN, TAPS};
use crate::parallel::RECENT;
use crate::terminal::LOUD;
use sdf_io::storage::Storage;
use std::alloc::{AllocError, Global};
use std::io::{self, Error, ErrorKind, Write};
use std::path::{Path, PathBuf};
use std::sync::Mutex;

/// A sound of the samples 5 and -5 at 44,100 Hz.
pub(crate) const SOUND: &[u8] =
    b"RIFF\x28\0\0\0WAVEfmt \x10\0\0\0\x01\0\x01\0\x44\xAC\0\0\x88\x58\x01\0\x02\0\x10\0data\x04\0\0\0\x05\0\xFB\xFF";

/// The header of `SOUND`.
pub(crate) const HEADER: &[u8] =
    b"RIFF\x28\0\0\0WAVEfmt \x10\0\0\0\x01\0\x01\0\x44\xAC\0\0\x88\x58\x01\0\x02\0\x10\0data\x04\0\0\0";

/// A sound of sixteen samples that are 0.
const SILENCE: &[u8] =
    b"RIFF\x44\0\0\0WAVEfmt \x10\0\0\0\x01\0\x01\0\x44\xAC\0\0\x88\x58\x01\0\x02\0\x10\0data\x20\0\0\0\0\0\0\0\0\0\
    \0\0\0\0\0\0\0\0\0\0\0\0\0\0\0\0\0\0\0\0\0\0\0\0\0\0";

/// A sound of samples of 8 bits.
const SHORT: &[u8] =
    b"RIFF\x24\0\0\0WAVEfmt \x10\0\0\0\x01\0\x01\0\x44\xAC\0\0\x44\xAC\0\0\x01\0\x08\0data\0\0\0\0";

/// A sound of the samples 7 and 8 at 44,100 Hz.
pub(crate) const NEW_SOUND: &[u8] =
    b"RIFF\x28\0\0\0WAVEfmt \x10\0\0\0\x01\0\x01\0\x44\xAC\0\0\x88\x58\x01\0\x02\0\x10\0data\x04\0\0\0\x07\0\x08\0";

/// A link that begins with two samples, between actors with a processor of their own.
const BEGUN: &str = r#"format = 1
actor = [{ name = "in", kind = "input", channel = 0, processor = 1 },
    { name = "out", kind = "output", channel = 0, processor = 0 }]
link = [{ from = "in", to = "out", initial = [7, 8] }]"#;

/// Two branches: one passes its input on, and the other adds nothing.
const BRANCHES: &str = r#"format = 1
actor = [{ name = "in", kind = "input", channel = 0 }, { name = "fork", kind = "fork", ways = 2 },
    { name = "same", kind = "fir", shift = 0, taps = [1] }, { name = "none", kind = "fir", shift = 0, taps = [0] },
    { name = "add", kind = "add", ways = 2 }, { name = "out", kind = "output", channel = 0 }]
link = [{ from = "in", to = "fork" }, { from = "fork:0", to = "same" }, { from = "fork:1", to = "none" },
    { from = "same", to = "add:0" }, { from = "none", to = "add:1" }, { from = "add", to = "out" }]"#;

/// A design that copies two channels, which are gathered into one in between.
const BOTH: &str = r#"format = 2
actor = [{ name = "left", kind = "input", channel = 0 }, { name = "right", kind = "input", channel = 1 },
    { name = "one", kind = "gather", ways = 2 }, { name = "two", kind = "deal", ways = 2 },
    { name = "low", kind = "output", channel = 0 }, { name = "high", kind = "output", channel = 1 }]
link = [{ from = "left", to = "one:0" }, { from = "right", to = "one:1" }, { from = "one", to = "two" },
    { from = "two:0", to = "low" }, { from = "two:1", to = "high" }]"#;

/// Two branches that make 64 samples of a frame and one again: one passes its input on, and the other adds nothing.
const HEAVY: &str = r#"format = 1
actor = [{ name = "in", kind = "input", channel = 0 }, { name = "fork", kind = "fork", ways = 2 },
    { name = "up", kind = "interpolate", factor = 64 }, { name = "same", kind = "decimate", factor = 64 },
    { name = "high", kind = "interpolate", factor = 64 }, { name = "low", kind = "decimate", factor = 64 },
    { name = "none", kind = "gain", gain = 0, shift = 0 },
    { name = "add", kind = "add", ways = 2 }, { name = "out", kind = "output", channel = 0 }]
link = [{ from = "in", to = "fork" }, { from = "fork:0", to = "up" }, { from = "up", to = "same" },
    { from = "fork:1", to = "high" }, { from = "high", to = "low" }, { from = "low", to = "none" },
    { from = "same", to = "add:0" }, { from = "none", to = "add:1" }, { from = "add", to = "out" }]"#;

/// `HEAVY` with a third branch, which adds nothing.
const WIDER: &str = r#"format = 1
actor = [{ name = "in", kind = "input", channel = 0 }, { name = "fork", kind = "fork", ways = 3 },
    { name = "up", kind = "interpolate", factor = 64 }, { name = "same", kind = "decimate", factor = 64 },
    { name = "high", kind = "interpolate", factor = 64 }, { name = "low", kind = "decimate", factor = 64 },
    { name = "none", kind = "gain", gain = 0, shift = 0 },
    { name = "far", kind = "interpolate", factor = 64 }, { name = "near", kind = "decimate", factor = 64 },
    { name = "nothing", kind = "gain", gain = 0, shift = 0 },
    { name = "add", kind = "add", ways = 3 }, { name = "out", kind = "output", channel = 0 }]
link = [{ from = "in", to = "fork" }, { from = "fork:0", to = "up" }, { from = "up", to = "same" },
    { from = "fork:1", to = "high" }, { from = "high", to = "low" }, { from = "low", to = "none" },
    { from = "fork:2", to = "far" }, { from = "far", to = "near" }, { from = "near", to = "nothing" },
    { from = "same", to = "add:0" }, { from = "none", to = "add:1" }, { from = "nothing", to = "add:2" },
    { from = "add", to = "out" }]"#;

/// A design that makes 48,000 samples of each one.
const STRETCHED: &str = r#"format = 1
actor = [{ name = "in", kind = "input", channel = 0 }, { name = "first", kind = "interpolate", factor = 60 },
    { name = "second", kind = "interpolate", factor = 50 }, { name = "third", kind = "interpolate", factor = 16 },
    { name = "out", kind = "output", channel = 0, block = 60 }]
link = [{ from = "in", to = "first" }, { from = "first", to = "second" }, { from = "second", to = "third" },
    { from = "third", to = "out" }]"#;

/// A filter that keeps five inputs and passes the newest on.
const KEPT: &str = r#"format = 1
actor = [{ name = "in", kind = "input", channel = 0 },
    { name = "same", kind = "fir", shift = 0, taps = [1, 0, 0, 0, 0, 0] },
    { name = "out", kind = "output", channel = 0 }]
link = [{ from = "in", to = "same" }, { from = "same", to = "out" }]"#;

/// A loop that begins with one sample and adds nothing to the input.
const LASTING: &str = r#"format = 1
actor = [{ name = "in", kind = "input", channel = 0 }, { name = "add", kind = "add", ways = 2 },
    { name = "fork", kind = "fork", ways = 2 }, { name = "none", kind = "gain", gain = 0, shift = 0 },
    { name = "out", kind = "output", channel = 0 }]
link = [{ from = "in", to = "add:0" }, { from = "add", to = "fork" }, { from = "fork:0", to = "out" },
    { from = "fork:1", to = "none" }, { from = "none", to = "add:1", initial = [0] }]"#;

/// The stages of `HEAVY` in one line, in which each actor feeds only the next.
const LINE: &str = r#"format = 1
actor = [{ name = "in", kind = "input", channel = 0 },
    { name = "up", kind = "interpolate", factor = 64 }, { name = "same", kind = "decimate", factor = 64 },
    { name = "high", kind = "interpolate", factor = 64 }, { name = "low", kind = "decimate", factor = 64 },
    { name = "out", kind = "output", channel = 0 }]
link = [{ from = "in", to = "up" }, { from = "up", to = "same" }, { from = "same", to = "high" },
    { from = "high", to = "low" }, { from = "low", to = "out" }]"#;

/// A link whose ends move different numbers of samples.
const BLOCKS: &str = r#"format = 1
actor = [{ name = "in", kind = "input", channel = 0, block = 2 },
    { name = "out", kind = "output", channel = 0, block = 3 }]
link = [{ from = "in", to = "out" }]"#;

/// A design whose period has 2,047 firings.
const LONG: &str = r#"format = 1
actor = [{ name = "in", kind = "input", channel = 0, block = 1023 },
    { name = "out", kind = "output", channel = 0, block = 1024 }]
link = [{ from = "in", to = "out" }]"#;

/// A loop that begins without a sample.
const STUCK: &str = r#"format = 1
actor = [{ name = "in", kind = "input", channel = 0 }, { name = "add", kind = "add", ways = 2 },
    { name = "fork", kind = "fork", ways = 2 },
    { name = "out", kind = "output", channel = 0 }]
link = [{ from = "in", to = "add:0" }, { from = "add", to = "fork" },
    { from = "fork:0", to = "out" }, { from = "fork:1", to = "add:1" }]"#;

/// A text that ends in the middle of a string.
const BROKEN: &str = "format = 1\nactor = [{ name = \"in";

/// A filter whose one tap is in a file that is not there.
const LACKING: &str = r#"format = 1
actor = [{ name = "in", kind = "input", channel = 0 }, { name = "same", kind = "fir", shift = 0, file = "two.toml" },
    { name = "out", kind = "output", channel = 0 }]
link = [{ from = "in", to = "same" }, { from = "same", to = "out" }]"#;

/// A design that reads a channel that no sound on the shelf has.
const RIGHT: &str = r#"format = 1
actor = [{ name = "left", kind = "input", channel = 0 }, { name = "right", kind = "input", channel = 1 },
    { name = "sum", kind = "add", ways = 2 }, { name = "out", kind = "output", channel = 0 }]
link = [{ from = "left", to = "sum:0" }, { from = "right", to = "sum:1" }, { from = "sum", to = "out" }]"#;

/// A design that keeps one sample of eight.
const EIGHTH: &str = r#"format = 1
actor = [{ name = "in", kind = "input", channel = 0 }, { name = "less", kind = "decimate", factor = 8 },
    { name = "out", kind = "output", channel = 0 }]
link = [{ from = "in", to = "less" }, { from = "less", to = "out" }]"#;

/// A filter whose factor is too great.
const WIDE: &str =
    "format = 1\nlink = []\n[[actor]]\nname = \"half\"\nkind = \"fir\"\nup = 147\nshift = 0\ntaps = [1]\n";

/// An actor on the fourth processor.
const FAR: &str = r#"format = 1
actor = [{ name = "in", kind = "input", channel = 0, processor = 3 },
    { name = "out", kind = "output", channel = 0, processor = 0 }]
link = [{ from = "in", to = "out" }]"#;

/// Two filters, each with its tap in a file of its own.
const TWICE: &str = r#"format = 1
actor = [{ name = "in", kind = "input", channel = 0 }, { name = "same", kind = "fir", shift = 0, file = "one.toml" },
    { name = "again", kind = "fir", shift = 0, file = "three.toml" }, { name = "out", kind = "output", channel = 0 }]
link = [{ from = "in", to = "same" }, { from = "same", to = "again" }, { from = "again", to = "out" }]"#;

/// Eight filters, each with its tap in a file of its own.
const EIGHT: &str = r#"format = 1
actor = [{ name = "in", kind = "input", channel = 0 },
    { name = "a", kind = "fir", shift = 0, file = "one.toml" },
    { name = "b", kind = "fir", shift = 0, file = "ten.toml" },
    { name = "c", kind = "fir", shift = 0, file = "three.toml" },
    { name = "d", kind = "fir", shift = 0, file = "four.toml" },
    { name = "e", kind = "fir", shift = 0, file = "five.toml" },
    { name = "f", kind = "fir", shift = 0, file = "six.toml" },
    { name = "g", kind = "fir", shift = 0, file = "seven.toml" },
    { name = "h", kind = "fir", shift = 0, file = "nine.toml" },
    { name = "out", kind = "output", channel = 0 }]
link = [{ from = "in", to = "a" }, { from = "a", to = "b" }, { from = "b", to = "c" }, { from = "c", to = "d" },
    { from = "d", to = "e" }, { from = "e", to = "f" }, { from = "f", to = "g" }, { from = "g", to = "h" },
    { from = "h", to = "out" }]"#;

/// A design in which a sample becomes 4,096 and one again: a frame is work enough for sixteen workers.
const STEEP: &str = r#"format = 1
actor = [{ name = "in", kind = "input", channel = 0 }, { name = "up", kind = "interpolate", factor = 64 },
    { name = "top", kind = "interpolate", factor = 64 }, { name = "same", kind = "decimate", factor = 64 },
    { name = "down", kind = "decimate", factor = 64 }, { name = "out", kind = "output", channel = 0 }]
link = [{ from = "in", to = "up" }, { from = "up", to = "top" }, { from = "top", to = "same" },
    { from = "same", to = "down" }, { from = "down", to = "out" }]"#;

/// A graph file with a cost in a form other than `cost = 12`.
const UNDERSCORED: &str = "format = 1
[[actor]]
name = \"in\"
kind = \"input\"
channel = 0
[[actor]]
name = \"out\"
kind = \"output\"
channel = 0
cost = 1_000
[[link]]
from = \"in\"
to = \"out\"
";

/// A coefficient file with a key that no coefficient file has.
const ODD: &str = "format = 1\nvalues = [1]\ntap = 1\n";

/// The design of `PLAIN`, made for 48,000 Hz.
const RATED: &str = r#"format = 1
rate = 48000
actor = [{ name = "in", kind = "input", channel = 0 }, { name = "out", kind = "output", channel = 0 }]
link = [{ from = "in", to = "out" }]"#;

/// A coefficient file with the values of `TAPS` that is longer than the graph file.
pub(crate) const PADDED: &str = "format = 1
# The taps of a filter that hands on what it takes: it has one tap, which is 1, and divides by nothing. What is said
# here makes the file longer than the graph file that names it, so that a limit can stand between the two: no graph file
# of this test is as long as this one, which is read after it, and is refused where it is a byte longer than may be.
# What is past the limit is not looked at, so it does not matter what would stand there.
values = [1]
";

/// Sounds, and the front of one.
const SOUNDS: &[(&str, &[u8])] = &[
    ("in.wav", SOUND),
    ("./-", SOUND),
    ("locked.wav", SOUND),
    ("silence.wav", SILENCE),
    ("cut.wav", HEADER),
    ("loud.wav", LOUD),
    ("takes/it's.wav", SHORT),
    ("-a.b/song", b"ID3\x04\0\0\0\0\0\0\0\0"),
    ("b:c.mp3", b"ID3\x04\0\0\0\0\0\0\0\0"),
];

/// Graph files that name no other file.
const DESIGNS: &[(&str, &str)] = &[
    ("plain.toml", PLAIN),
    ("rated.toml", RATED),
    ("-", PLAIN),
    ("commented.toml", COMMENTED),
    ("begun.toml", BEGUN),
    ("both.toml", BOTH),
    ("blocks.toml", BLOCKS),
    ("long.toml", LONG),
];

/// More graph files, each of which a command of the tests refuses. The coefficient file of `LACKING` is not there.
const MORE_DESIGNS: &[(&str, &str)] = &[
    ("stuck.toml", STUCK),
    ("broken.toml", BROKEN),
    ("lacking.toml", LACKING),
    ("right.toml", RIGHT),
    ("eighth.toml", EIGHTH),
    ("wide.toml", WIDE),
    ("underscored.toml", UNDERSCORED),
    ("spaced.toml", SPACED),
    ("far.toml", FAR),
];

/// Graph files of the tests of parallel runs.
const PARALLEL: &[(&str, &str)] = &[
    ("branches.toml", BRANCHES),
    ("heavy.toml", HEAVY),
    ("wider.toml", WIDER),
    ("stretched.toml", STRETCHED),
    ("steep.toml", STEEP),
    ("kept.toml", KEPT),
    ("recent.toml", RECENT),
    ("lasting.toml", LASTING),
    ("line.toml", LINE),
];

/// Graph files that name coefficient files, those files, and files in folders.
const BESIDE: &[(&str, &str)] = &[
    ("filtered.toml", FILTERED),
    ("one.toml", TAPS),
    ("full/graph.toml", PLAIN),
    ("begun/stage1.toml", TAPS),
    ("ended/stage2.toml", TAPS),
    ("twice.toml", TWICE),
    ("three.toml", TAPS),
    ("four.toml", TAPS),
    ("five.toml", TAPS),
    ("six.toml", TAPS),
    ("seven.toml", TAPS),
    ("nine.toml", TAPS),
    ("ten.toml", TAPS),
    ("eight.toml", EIGHT),
    ("lacks/twice.toml", TWICE),
    ("torn/filtered.toml", FILTERED),
    ("torn/one.toml", BROKEN),
    ("odd/filtered.toml", FILTERED),
    ("odd/one.toml", ODD),
    ("padded/filtered.toml", FILTERED),
    ("padded/one.toml", PADDED),
];

/// Returns the value at `path` in `files`, if there is one.
fn value_at<V: Copy>(files: &[(&str, V)], path: &str) -> Option<V> {
    for (name, value) in files {
        if path == *name {
            return Some(*value);
        }
    }
    None
}

/// Returns the text of a graph file or a coefficient file.
fn text_of(path: &str) -> Option<&'static str> {
    if let Some(text) = value_at(DESIGNS, path) {
        return Some(text);
    }
    if let Some(text) = value_at(MORE_DESIGNS, path) {
        return Some(text);
    }
    if let Some(text) = value_at(PARALLEL, path) {
        return Some(text);
    }
    value_at(BESIDE, path)
}

/// Returns the bytes of a file of the tests.
fn bytes_of(path: &str) -> Option<&'static [u8]> {
    match value_at(SOUNDS, path) {
        Some(sound) => Some(sound),
        None => Some(text_of(path)?.as_bytes()),
    }
}

/// Files, and the indices of their places. Parts have a place of their own, since they are written at the same time.
const PLACES: &[(&str, usize)] = &[
    ("made/in.wav.part", 0),
    ("made/cut.wav.part", 1),
    ("made/one.toml.part", 2),
    ("out.wav", SHARED),
];

/// The index of the place of all other files that can be made. It is behind the places of the parts.
const SHARED: usize = 3;

/// Returns the index of the place of a file that can be made.
fn place_of(path: &str) -> Option<usize> {
    if let Some(place) = value_at(PLACES, path) {
        return Some(place);
    }
    if path.starts_with("made/") {
        Some(SHARED)
    } else {
        None
    }
}

/// Returns places in which nothing is written.
pub(crate) fn places(alloc: Global) -> Result<Vec<Mutex<Vec<u8>>>, AllocError> {
    let mut places = Vec::new(alloc);
    for _ in 0..=SHARED {
        places.push(Mutex::new(Vec::new(alloc)))?;
    }
    Ok(places)
}

/// Files in memory that threads share. Only out.wav and files in the folder `made` can be written: each part of a sound
/// in a place of its own, and all other files in one place, one after the other. Removing a file clears its place. Only
/// parts can be renamed, except the part of locked.wav. `-` names no sound, but `./-` does.
#[derive(Clone, Copy)]
pub(crate) struct Shelf<'a> {
    pub(crate) places: &'a [Mutex<Vec<u8>>],
}

impl<'a> Shelf<'a> {
    /// Returns the place of a file that can be made.
    fn place(&self, path: &str) -> Option<&'a Mutex<Vec<u8>>> {
        self.places.get(place_of(path)?)
    }
}

/// A file that is open for writing.
#[derive(Clone, Copy)]
pub(crate) struct Slot<'a> {
    written: &'a Mutex<Vec<u8>>,
}

impl Write for Slot<'_> {
    fn write(&mut self, bytes: &[u8]) -> io::Result<usize> {
        match self.written.try_lock() {
            Some(mut written) => written.write(bytes),
            None => Err(Error::from(ErrorKind::ResourceBusy)),
        }
    }

    fn flush(&mut self) -> io::Result<()> {
        Ok(())
    }
}

impl<'a> Storage for Shelf<'a> {
    type Source = &'static [u8];

    type Sink = Slot<'a>;

    fn open(&self, path: &str) -> io::Result<&'static [u8]> {
        if path == "no-memory" {
            return Err(Error::from(ErrorKind::OutOfMemory));
        }
        bytes_of(path).ok_or(Error::from(ErrorKind::NotFound))
    }

    fn create(&self, path: &str) -> io::Result<Slot<'a>> {
        match self.place(path) {
            Some(written) => Ok(Slot { written }),
            None => Err(Error::from(ErrorKind::PermissionDenied)),
        }
    }

    fn create_new(&self, path: &str) -> io::Result<Slot<'a>> {
        self.create(path)
    }

    fn has_content(&self, path: &str) -> bool {
        bytes_of(path).is_some()
    }

    fn test_write(&self, path: &str) -> io::Result<()> {
        self.create(path)?;
        Ok(())
    }

    fn copy_permissions(&self, _from: &str, _to: &str) -> io::Result<()> {
        Ok(())
    }

    fn create_folder(&self, path: &str) -> io::Result<()> {
        if path == "made" {
            Ok(())
        } else {
            Err(Error::from(ErrorKind::PermissionDenied))
        }
    }

    fn rename(&self, from: &str, to: &str) -> io::Result<()> {
        match from.strip_prefix(to) {
            Some(".part") if to == "made/locked.wav" => Err(Error::from(
                ErrorKind::PermissionDenied,
            )),
            Some(".part") => Ok(()),
            _ => Err(Error::from(ErrorKind::NotFound)),
        }
    }

    fn remove(&self, path: &str) -> io::Result<()> {
        let Some(written) = self.place(path) else {
            return Err(Error::from(ErrorKind::NotFound));
        };
        match written.try_lock() {
            Some(mut written) => Ok(written.clear()),
            None => Err(Error::from(ErrorKind::ResourceBusy)),
        }
    }

    fn remove_folder(&self, _path: &str) -> io::Result<()> {
        Err(Error::from(ErrorKind::PermissionDenied))
    }

    fn canonical_path(&self, alloc: Global, path: &str) -> io::Result<PathBuf> {
        self.open(path)?;
        let plain = match path.strip_prefix("./") {
            Some(plain) => plain,
            None => path,
        };
        Ok(Path::new(plain).to_path_buf(alloc)?)
    }
}
