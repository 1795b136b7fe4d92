//! The table of kinds: one row for each kind, and one reader for all rows.
//!
//! `docs/FORMATS.md` ("How to add a kind") lists what a new kind needs. Here it is a variant in `Kind` and `KINDS`, its
//! keys, and an arm of `row_of` with its word.
ghost use Rattle.std.specs.Prelude.{◌≡◌};
ghost use Rattle.sdf_kinds.specs.Rows.{keys_view, row_view, shared_keys, row_of, kinds};

use crate::key::Key;
use sdf_limits::{
    LEAST_WAYS, MAX_CHANNEL, MAX_COST, MAX_DELAY, MAX_FACTOR, MAX_PROCESSOR, MAX_RATE, MAX_RUN,
    MAX_SHIFT, MAX_TAPS, MAX_VALUES, MAX_WAYS,
};

/// The kinds of actors.
#[derive(Clone, Copy, Debug, PartialEq, Eq)]
pub enum Kind {
    Input,
    Output,
    Fir,
    Decimate,
    Interpolate,
    Add,
    Fork,
    Gain,
    Delay,
    Table,
    Deal,
    Gather,
    Clip,
    Offset,
}

/// The range of the values of a list.
#[derive(Clone, Copy, Debug, PartialEq, Eq)]
pub enum Width {
    Bits16,
    Bits32,
}

/// The form of a key's value, and its limits.
#[derive(Clone, Copy, Debug)]
pub enum Form {
    /// A whole number from the first to the second field. The third is its default, if the key may be absent.
    Natural(u32, u32, Option<u32>),
    /// A whole number from the first to the second field, or no value if the key is absent.
    Optional(u32, u32),
    /// Like `Natural`, but the number and its limits may be negative.
    Integer(i32, i32, Option<i32>),
    /// Like `Integer`, but at least the value of the key `least`, which precedes it in the row.
    FromLeast(i32, i32, Option<i32>),
    /// An array of whole numbers, or the key `file` instead. The first field is the greatest length.
    List(usize, Width),
}

/// A key of a row, and the form of its value.
#[derive(Clone, Copy, Debug)]
pub struct KeyForm(pub Key, pub Form);

/// A row of the table: the kind's word, the first format that has it, and its keys in the order in which they are
/// tested.
#[derive(Clone, Copy, Debug)]
pub struct Row {
    pub word: &'static str,
    pub since: u32,
    pub keys: &'static [KeyForm],
}

static CHANNEL_KEYS: [KeyForm; 2] = [
    KeyForm(Key::Channel, Form::Natural(0, MAX_CHANNEL, None)),
    KeyForm(Key::Block, Form::Natural(1, MAX_RATE, Some(1))),
];

static FIR_KEYS: [KeyForm; 4] = [
    KeyForm(Key::Up, Form::Natural(1, MAX_FACTOR, Some(1))),
    KeyForm(Key::Down, Form::Natural(1, MAX_FACTOR, Some(1))),
    KeyForm(Key::Shift, Form::Natural(0, MAX_SHIFT, None)),
    KeyForm(Key::Taps, Form::List(MAX_TAPS, Width::Bits16)),
];

static FACTOR_KEYS: [KeyForm; 1] = [KeyForm(Key::Factor, Form::Natural(1, MAX_FACTOR, None))];

static WAYS_KEYS: [KeyForm; 1] = [KeyForm(Key::Ways, Form::Natural(LEAST_WAYS, MAX_WAYS, None))];

static GAIN_KEYS: [KeyForm; 2] = [
    KeyForm(Key::Gain, Form::Integer(-32768, 32767, None)),
    KeyForm(Key::Shift, Form::Natural(0, MAX_SHIFT, None)),
];

static DELAY_KEYS: [KeyForm; 1] = [KeyForm(Key::Length, Form::Natural(0, MAX_DELAY, None))];

static TABLE_KEYS: [KeyForm; 2] = [
    KeyForm(Key::Offset, Form::Integer(i32::MIN, i32::MAX, None)),
    KeyForm(Key::Values, Form::List(MAX_VALUES, Width::Bits32)),
];

static TURN_KEYS: [KeyForm; 2] = [
    KeyForm(Key::Ways, Form::Natural(LEAST_WAYS, MAX_WAYS, None)),
    KeyForm(Key::Run, Form::Natural(1, MAX_RUN, Some(1))),
];

static CLIP_KEYS: [KeyForm; 2] = [
    KeyForm(Key::Least, Form::Integer(-32768, 32767, Some(-32768))),
    KeyForm(Key::Greatest, Form::FromLeast(-32768, 32767, Some(32767))),
];

static OFFSET_KEYS: [KeyForm; 1] = [KeyForm(Key::Value, Form::Integer(-32768, 32767, None))];

static SHARED_KEYS: [KeyForm; 2] = [
    KeyForm(Key::Processor, Form::Optional(0, MAX_PROCESSOR)),
    KeyForm(Key::Cost, Form::Natural(1, MAX_COST, Some(1))),
];

static KINDS: [Kind; 14] = [
    Kind::Input,
    Kind::Output,
    Kind::Fir,
    Kind::Decimate,
    Kind::Interpolate,
    Kind::Add,
    Kind::Fork,
    Kind::Gain,
    Kind::Delay,
    Kind::Table,
    Kind::Deal,
    Kind::Gather,
    Kind::Clip,
    Kind::Offset,
];

/// Returns the keys that every actor may have. They are tested after the keys of the actor's kind.
pub fn shared_keys() -> &'static [KeyForm]
    ensures { keys_view result.now ≡ shared_keys }
{
    SHARED_KEYS.as_slice()
}

/// Returns all kinds, in the order of the table.
pub fn kinds() -> &'static [Kind]
    ensures { result.now ≡ kinds }
{
    KINDS.as_slice()
}

fn row_with(word: &'static str, since: u32, keys: &'static [KeyForm]) -> Row
    ensures { row_view result ≡ record { word = word.now; since = since; keys = keys_view keys.now } }
{
    Row { word, since, keys }
}

/// Returns the row of `kind`.
pub fn row_of(kind: Kind) -> Row
    ensures { row_view result ≡ row_of kind }
{
    match kind {
        Kind::Input => row_with("input", 1, CHANNEL_KEYS.as_slice()),
        Kind::Output => row_with("output", 1, CHANNEL_KEYS.as_slice()),
        Kind::Fir => row_with("fir", 1, FIR_KEYS.as_slice()),
        Kind::Decimate => row_with("decimate", 1, FACTOR_KEYS.as_slice()),
        Kind::Interpolate => row_with("interpolate", 1, FACTOR_KEYS.as_slice()),
        Kind::Add => row_with("add", 1, WAYS_KEYS.as_slice()),
        Kind::Fork => row_with("fork", 1, WAYS_KEYS.as_slice()),
        Kind::Gain => row_with("gain", 1, GAIN_KEYS.as_slice()),
        Kind::Delay => row_with("delay", 1, DELAY_KEYS.as_slice()),
        Kind::Table => row_with("table", 1, TABLE_KEYS.as_slice()),
        Kind::Deal => row_with("deal", 2, TURN_KEYS.as_slice()),
        Kind::Gather => row_with("gather", 2, TURN_KEYS.as_slice()),
        Kind::Clip => row_with("clip", 2, CLIP_KEYS.as_slice()),
        Kind::Offset => row_with("offset", 2, OFFSET_KEYS.as_slice()),
    }
}

impl Kind {
    /// Returns the kind's word in design files.
    pub fn word(self) -> &'static str
        ensures { result.now ≡ (row_of self).word }
    {
        row_of(self).word
    }
}
