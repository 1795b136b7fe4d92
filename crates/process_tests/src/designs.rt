//! The designs of the tests.

/// A gain that halves each sample.
pub(crate) const HALF: &str = r#"format = 1
actor = [{ name = "in", kind = "input", channel = 0 }, { name = "half", kind = "gain", gain = 16384, shift = 15 },
    { name = "out", kind = "output", channel = 0 }]
link = [{ from = "in", to = "half" }, { from = "half", to = "out" }]"#;

/// An input of two samples a firing, linked to an output of three.
pub(crate) const BLOCKS: &str = r#"format = 1
actor = [{ name = "in", kind = "input", channel = 0, block = 2 },
    { name = "out", kind = "output", channel = 0, block = 3 }]
link = [{ from = "in", to = "out" }]"#;

/// A converter from 44,100 to 48,000 in four stages. Each stage has `up` taps, all 1.
pub(crate) const CHAIN: &str = r#"format = 1
actor = [{ name = "in", kind = "input", channel = 0 },
    { name = "a", kind = "fir", up = 2, shift = 0, taps = [1, 1] },
    { name = "b", kind = "fir", up = 2, down = 3, shift = 0, taps = [1, 1] },
    { name = "c", kind = "fir", up = 8, down = 7, shift = 0, taps = [1, 1, 1, 1, 1, 1, 1, 1] },
    { name = "d", kind = "fir", up = 5, down = 7, shift = 0, taps = [1, 1, 1, 1, 1] },
    { name = "out", kind = "output", channel = 0 }]
link = [{ from = "in", to = "a" }, { from = "a", to = "b" }, { from = "b", to = "c" }, { from = "c", to = "d" },
    { from = "d", to = "out" }]"#;

/// A converter that makes three samples of two. Each tap is 16,384, which is 1 at a shift of 14.
pub(crate) const THREE_FOR_TWO: &str = r#"format = 1
actor = [{ name = "in", kind = "input", channel = 0 },
    { name = "up", kind = "fir", up = 3, down = 2, shift = 14, taps = [16384, 16384, 16384] },
    { name = "out", kind = "output", channel = 0 }]
link = [{ from = "in", to = "up" }, { from = "up", to = "out" }]"#;

/// A feedback loop: each output, negated, is added to the next input. Its last link begins with a sample.
pub(crate) const LOOP: &str = r#"format = 1
actor = [{ name = "in", kind = "input", channel = 0 }, { name = "add", kind = "add", ways = 2 },
    { name = "fork", kind = "fork", ways = 2 }, { name = "gain", kind = "gain", gain = -32768, shift = 15 },
    { name = "out", kind = "output", channel = 0 }]
link = [{ from = "in", to = "add:0" }, { from = "add", to = "fork" }, { from = "fork:0", to = "out" },
    { from = "fork:1", to = "gain" }, { from = "gain", to = "add:1", initial = [0] }]"#;

/// A feedback loop that begins without a sample.
pub(crate) const STUCK: &str = r#"format = 1
actor = [{ name = "in", kind = "input", channel = 0 }, { name = "add", kind = "add", ways = 2 },
    { name = "fork", kind = "fork", ways = 2 }, { name = "gain", kind = "gain", gain = -32768, shift = 15 },
    { name = "out", kind = "output", channel = 0 }]
link = [{ from = "in", to = "add:0" }, { from = "add", to = "fork" }, { from = "fork:0", to = "out" },
    { from = "fork:1", to = "gain" }, { from = "gain", to = "add:1" }]"#;

/// A feedback loop with a delay in it, which is not an initial sample.
pub(crate) const DELAYED: &str = r#"format = 1
actor = [{ name = "in", kind = "input", channel = 0 }, { name = "add", kind = "add", ways = 2 },
    { name = "fork", kind = "fork", ways = 2 }, { name = "gain", kind = "gain", gain = -32768, shift = 15 },
    { name = "late", kind = "delay", length = 1 },
    { name = "out", kind = "output", channel = 0 }]
link = [{ from = "in", to = "add:0" }, { from = "add", to = "fork" }, { from = "fork:0", to = "out" },
    { from = "fork:1", to = "gain" }, { from = "gain", to = "late" }, { from = "late", to = "add:1" }]"#;

/// A gain that negates each sample.
pub(crate) const TURNED: &str = r#"format = 1
actor = [{ name = "in", kind = "input", channel = 0 }, { name = "turn", kind = "gain", gain = -32768, shift = 15 },
    { name = "out", kind = "output", channel = 0 }]
link = [{ from = "in", to = "turn" }, { from = "turn", to = "out" }]"#;

/// A link that begins with two samples.
pub(crate) const INITIAL: &str = r#"format = 1
actor = [{ name = "in", kind = "input", channel = 0 }, { name = "out", kind = "output", channel = 0 }]
link = [{ from = "in", to = "out", initial = [7, 8] }]"#;

/// A fork whose two branches are added.
pub(crate) const TWICE: &str = r#"format = 1
actor = [{ name = "in", kind = "input", channel = 0 }, { name = "fork", kind = "fork", ways = 2 },
    { name = "add", kind = "add", ways = 2 }, { name = "out", kind = "output", channel = 0 }]
link = [{ from = "in", to = "fork" }, { from = "fork:0", to = "add:0" }, { from = "fork:1", to = "add:1" },
    { from = "add", to = "out" }]"#;

/// Two branches: one loses every second sample, and the other none.
pub(crate) const UNEVEN: &str = r#"format = 1
actor = [{ name = "in", kind = "input", channel = 0 }, { name = "fork", kind = "fork", ways = 2 },
    { name = "dec", kind = "decimate", factor = 2 }, { name = "add", kind = "add", ways = 2 },
    { name = "out", kind = "output", channel = 0 }]
link = [{ from = "in", to = "fork" }, { from = "fork:0", to = "dec" }, { from = "dec", to = "add:0" },
    { from = "fork:1", to = "add:1" },
    { from = "add", to = "out" }]"#;

/// A design that reads the second channel alone.
pub(crate) const SECOND: &str = r#"format = 1
actor = [{ name = "in", kind = "input", channel = 1 }, { name = "out", kind = "output", channel = 0 }]
link = [{ from = "in", to = "out" }]"#;

/// The two channels swapped, joined by a branch that adds nothing.
pub(crate) const SWAP: &str = r#"format = 1
actor = [{ name = "in0", kind = "input", channel = 0 }, { name = "in1", kind = "input", channel = 1 },
    { name = "split", kind = "fork", ways = 2 }, { name = "nothing", kind = "gain", gain = 0, shift = 0 },
    { name = "join", kind = "add", ways = 2 }, { name = "out0", kind = "output", channel = 0 },
    { name = "out1", kind = "output", channel = 1 }]
link = [{ from = "in0", to = "split" }, { from = "split:0", to = "out1" }, { from = "split:1", to = "nothing" },
    { from = "in1", to = "join:0" }, { from = "nothing", to = "join:1" }, { from = "join", to = "out0" }]"#;

/// The maximum number of channels of a file, in reversed order.
pub(crate) const TURNED_ORDER: &str = r#"format = 2
actor = [{ name = "a", kind = "input", channel = 0 }, { name = "b", kind = "input", channel = 1 },
    { name = "c", kind = "input", channel = 2 }, { name = "d", kind = "input", channel = 3 },
    { name = "e", kind = "input", channel = 4 }, { name = "f", kind = "input", channel = 5 },
    { name = "g", kind = "input", channel = 6 }, { name = "h", kind = "input", channel = 7 },
    { name = "gather", kind = "gather", ways = 8 }, { name = "deal", kind = "deal", ways = 8 },
    { name = "s", kind = "output", channel = 0 }, { name = "t", kind = "output", channel = 1 },
    { name = "u", kind = "output", channel = 2 }, { name = "v", kind = "output", channel = 3 },
    { name = "w", kind = "output", channel = 4 }, { name = "x", kind = "output", channel = 5 },
    { name = "y", kind = "output", channel = 6 }, { name = "z", kind = "output", channel = 7 }]
link = [{ from = "a", to = "gather:0" }, { from = "b", to = "gather:1" }, { from = "c", to = "gather:2" },
    { from = "d", to = "gather:3" }, { from = "e", to = "gather:4" }, { from = "f", to = "gather:5" },
    { from = "g", to = "gather:6" }, { from = "h", to = "gather:7" }, { from = "gather", to = "deal" },
    { from = "deal:0", to = "z" }, { from = "deal:1", to = "y" }, { from = "deal:2", to = "x" },
    { from = "deal:3", to = "w" }, { from = "deal:4", to = "v" }, { from = "deal:5", to = "u" },
    { from = "deal:6", to = "t" }, { from = "deal:7", to = "s" }]"#;

/// A design that doubles each second sample, on a branch of its own.
pub(crate) const SECOND_DOUBLED: &str = r#"format = 2
actor = [{ name = "in", kind = "input", channel = 0 }, { name = "deal", kind = "deal", ways = 2 },
    { name = "x", kind = "gain", gain = 1, shift = 0 }, { name = "y", kind = "gain", gain = 2, shift = 0 },
    { name = "gather", kind = "gather", ways = 2 }, { name = "out", kind = "output", channel = 0 }]
link = [{ from = "in", to = "deal" }, { from = "deal:0", to = "x" }, { from = "deal:1", to = "y" },
    { from = "x", to = "gather:0" }, { from = "y", to = "gather:1" }, { from = "gather", to = "out" }]"#;

/// Samples that are dealt two at a time, and gathered one at a time.
pub(crate) const PAIRS: &str = r#"format = 2
actor = [{ name = "in", kind = "input", channel = 0 }, { name = "deal", kind = "deal", ways = 2, run = 2 },
    { name = "gather", kind = "gather", ways = 2, run = 1 }, { name = "out", kind = "output", channel = 0 }]
link = [{ from = "in", to = "deal" }, { from = "deal:0", to = "gather:0" }, { from = "deal:1", to = "gather:1" },
    { from = "gather", to = "out" }]"#;

/// A format that does not exist.
pub(crate) const LATER: &str = "format = 3\nactor = []\nlink = []";

/// A kind of format 2 in a file of format 1.
pub(crate) const EARLY: &str = r#"format = 1
actor = [{ name = "in", kind = "input", channel = 0 }, { name = "deal", kind = "deal", ways = 2 }]
link = []"#;

/// Two gains with a sample on their input links: each can fire from the start.
pub(crate) const PAIR: &str = r#"format = 1
actor = [{ name = "in", kind = "input", channel = 0 }, { name = "fork", kind = "fork", ways = 2 },
    { name = "x", kind = "gain", gain = 1, shift = 0 }, { name = "y", kind = "gain", gain = 1, shift = 0 },
    { name = "add", kind = "add", ways = 2 }, { name = "out", kind = "output", channel = 0 }]
link = [{ from = "in", to = "fork" }, { from = "fork:0", to = "x", initial = [0] },
    { from = "fork:1", to = "y", initial = [0] }, { from = "x", to = "add:0" }, { from = "y", to = "add:1" },
    { from = "add", to = "out" }]"#;

/// A design that returns a sample after 65,536 others.
pub(crate) const FAR_BACK: &str = r#"format = 1
actor = [{ name = "in", kind = "input", channel = 0 }, { name = "late", kind = "delay", length = 65536 },
    { name = "out", kind = "output", channel = 0 }]
link = [{ from = "in", to = "late" }, { from = "late", to = "out" }]"#;

/// The sum of two channels. One of two workers is the home of the sources, and the other of the rest: by the file, and
/// also if homes are spread.
pub(crate) const SUM: &str = r#"format = 1
actor = [{ name = "left", kind = "input", channel = 0, processor = 0 },
    { name = "right", kind = "input", channel = 1, processor = 0 },
    { name = "add", kind = "add", ways = 2, processor = 1 },
    { name = "out", kind = "output", channel = 0, processor = 1 }]
link = [{ from = "left", to = "add:0" }, { from = "right", to = "add:1" }, { from = "add", to = "out" }]"#;

/// Two samples a firing of the source, dealt in threes to two outputs. One of two workers is the home of the source and
/// `left`, and the other of the rest.
pub(crate) const DEALT: &str = r#"format = 2
actor = [{ name = "in", kind = "input", channel = 0, block = 2 }, { name = "deal", kind = "deal", ways = 2, run = 3 },
    { name = "left", kind = "output", channel = 0, block = 3 },
    { name = "right", kind = "output", channel = 1, block = 3 }]
link = [{ from = "in", to = "deal" }, { from = "deal:0", to = "left" }, { from = "deal:1", to = "right" }]"#;

/// A design that copies its input. One of two workers is the home of the source, and the other of the sink.
pub(crate) const PLAIN: &str = r#"format = 1
actor = [{ name = "in", kind = "input", channel = 0 }, { name = "out", kind = "output", channel = 0 }]
link = [{ from = "in", to = "out" }]"#;

/// A design that copies its input, 1,024 samples at a time.
pub(crate) const BY_BLOCKS: &str = r#"format = 1
actor = [{ name = "in", kind = "input", channel = 0, block = 1024 },
    { name = "out", kind = "output", channel = 0, block = 1024 }]
link = [{ from = "in", to = "out" }]"#;

/// An input of 1,024 samples a firing, linked to an output of 1,023, on one worker. By the policy `runs` the source
/// fires 1,023 times, then the sink. So all 1,047,552 samples of a period are on the link.
pub(crate) const LONG: &str = r#"format = 1
actor = [{ name = "in", kind = "input", channel = 0, block = 1024, processor = 0 },
    { name = "out", kind = "output", channel = 0, block = 1023, processor = 0 }]
link = [{ from = "in", to = "out" }]"#;
