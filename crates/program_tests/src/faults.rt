//! Tests of faults over files in memory: how they are printed, which of two is the first, and what `--why` adds.

use crate::commands::{Row, expect_rows};
use std::test::Fail;

/// Faults and mistakes. Refuses a program that checks without a plan, reports a mistake as a fault, or always ends with
/// the status for memory. Refuses also control characters of a word as they are, and a mistake in one line.
const FAULTS: &[Row] = &[
    (
        "a number that there is not",
        "explain 64",
        "2\n--\nerror: invalid value '64' for '<NUMBER>': 64 is not in 1..=63\n\nFor more information, try \
         '--help'.\n--\n",
    ),
    (
        "a name that there is not, and one that is like it",
        "explain Deadlok",
        "2\n--\nerror: no fault has the name 'Deadlok'\n\n  tip: did you mean 'Deadlock'?\n--\n",
    ),
    (
        "a front of a name, which another name is more like",
        "explain Dead",
        "2\n--\nerror: no fault has the name 'Dead'\n\n  tip: did you mean 'Read'?\n--\n",
    ),
    (
        "a name that is like none",
        "explain Dreadnought",
        "2\n--\nerror: no fault has the name 'Dreadnought'\n--\n",
    ),
    (
        "a word that would control the terminal",
        "\u{1b}[31mcheck\u{7}",
        "2\n--\nerror: …'\\u{1b}[31mcheck\\u{7}'…\n\nUsage: …",
    ),
    (
        "the value of an option that would",
        "schedule plain.toml --policy \u{9b}2J",
        "2\n--\nerror: invalid value '\\u{9b}2J' for '--policy <…>'\n…",
    ),
    (
        "a design in place of a sound",
        "run plain.toml plain.toml out.wav",
        "4\n--\nsdfw: 34 NotRiff\n--\n",
    ),
    (
        "a design that is not there",
        "check none.toml",
        "5\n--\nsdfw: 47 Read\n--\n",
    ),
    (
        "a file that can't be made",
        "run plain.toml in.wav no.wav",
        "5\n--\nsdfw: 48 Write\n--\n",
    ),
    (
        "memory that is refused",
        "schedule no-memory",
        "6\n--\nsdfw: 1 OutOfMemory\n--\n",
    ),
    (
        "an OUT that is IN",
        "run plain.toml in.wav in.wav",
        "2\n--\nerror: OUT is the same file as IN\n--\n",
    ),
];

/// What `--why` adds. The lines of a deadlock stay as they are, and a cycle follows them. Other lines are what the
/// system or the reader of TOML said of a file, and what the header of a sound says.
const WHY: &[Row] = &[
    (
        "a deadlock",
        "check stuck.toml",
        "3\n--\nsdfw: 10 Deadlock\nin 1 of 1\nadd 0 of 1 short link 3\nfork 0 of 1 short link 1\nout 0 of 1 short \
         link 2\n--\n",
    ),
    (
        "a deadlock, and its cycle",
        "check stuck.toml --why",
        "3\n--\nsdfw: 10 Deadlock\nin 1 of 1\nadd 0 of 1 short link 3\nfork 0 of 1 short link 1\nout 0 of 1 short \
         link 2\n  link 3 is fork:1 -> add:1, holds 0, needs 1\n  link 1 is add:0 -> fork:0, holds 0, needs 1\n  \
         link 2 is fork:0 -> out:0\n  sdfw explain 10 says what to do\n--\n",
    ),
    (
        "the same of a schedule",
        "schedule stuck.toml --why",
        "3\n--\nsdfw: 10 Deadlock\nin 1 of 1\nadd 0 of 1 short link 3\nfork 0 of 1 short link 1\nout 0 of 1 short \
         link 2\n  link 3 is fork:1 -> add:1, holds 0, needs 1\n  link 1 is add:0 -> fork:0, holds 0, needs 1\n  \
         link 2 is fork:0 -> out:0\n  sdfw explain 10 says what to do\n--\n",
    ),
    (
        "the same of a run",
        "run stuck.toml in.wav out.wav --why",
        "3\n--\nsdfw: 10 Deadlock\nin 1 of 1\nadd 0 of 1 short link 3\nfork 0 of 1 short link 1\nout 0 of 1 short \
         link 2\n  link 3 is fork:1 -> add:1, holds 0, needs 1\n  link 1 is add:0 -> fork:0, holds 0, needs 1\n  \
         link 2 is fork:0 -> out:0\n  sdfw explain 10 says what to do\n--\n",
    ),
    (
        "an actor without a home, by its name",
        "schedule begun.toml --placement file --why",
        "3\n--\nsdfw: 19 BadHome actor 0\n  actor 0 is \"in\", an input\n  processor = 1, needs 0..0\n  sdfw explain \
         19 says what to do\n--\n",
    ),
    (
        "a design that is not there",
        "run none.toml in.wav out.wav --why",
        "5\n--\nsdfw: 47 Read\n  \"none.toml\": entity not found\n  sdfw explain 47 says what to do\n--\n",
    ),
    (
        "a sound that is not there",
        "run plain.toml none.wav out.wav --why",
        "5\n--\nsdfw: 47 Read\n  \"none.wav\": entity not found\n  sdfw explain 47 says what to do\n--\n",
    ),
    (
        "a file that can't be made",
        "run plain.toml in.wav else.wav --why",
        "5\n--\nsdfw: 48 Write\n  \"else.wav\": permission denied\n  sdfw explain 48 says what to do\n--\n",
    ),
    (
        "a design that is no document",
        "run broken.toml in.wav out.wav --why",
        "3\n--\nsdfw: 49 NotToml top\n  \"broken.toml\": TOML parse error at line 2, column 22: invalid string\n  sdfw \
         explain 49 says what to do\n--\n",
    ),
    (
        "a coefficient file that is not there",
        "run lacking.toml in.wav out.wav --why",
        "3\n--\nsdfw: 58 NoFile file two.toml\n  actor 1 is \"same\", a fir\n  \"two.toml\": entity not found\n  sdfw \
         explain 58 says what to do\n--\n",
    ),
    (
        "a channel that is not there",
        "run right.toml in.wav out.wav --why",
        "4\n--\nsdfw: 59 ChannelsMissing\n  \"in.wav\": has 44100 samples a second in 1 channel\n  the design needs 2 \
         channels, the sound has 1\n  actor 0 is \"left\", \
         an input\n  channel = 0\n  actor 1 is \"right\", an input\n  channel = 1\n  sdfw explain 59 says what to \
         do\n--\n",
    ),
    (
        "a rate that is not whole",
        "run eighth.toml in.wav out.wav --why",
        "4\n--\nsdfw: 60 RateNotWhole\n  \"in.wav\": has 44100 samples a second in 1 channel\n  44100 * 1 / 8 = \
         5512 and 4/8\n  sdfw explain 60 says what to do\n--\n",
    ),
];

/// Lines with more than one fault. Refuses a program that adds nothing for `--why`, prints the limits of other options,
/// or has another fault first. Refuses one that protects or names only the first coefficient file, or that reports on a
/// parallel run only once it has ended well. Refuses also a profile that looks at FILE before IN is open.
const BESIDE: &[Row] = &[
    (
        "a key, and what it needs",
        "check wide.toml --why",
        "3\n--\nsdfw: 28 KitValue actor 0 key up\n  actor 0 is \"half\", a fir\n  up = 147, needs 1..64\n  sdfw \
         explain 28 says what to do\n--\n",
    ),
    (
        "a key of a coefficient file",
        "run odd/filtered.toml in.wav out.wav --why",
        "3\n--\nsdfw: 51 UnknownKey file one.toml key tap\n  actor 2 is \"same\", a fir\n  tap = 1\n  sdfw explain 51 \
         says what to do\n--\n",
    ),
    (
        "an actor past the last of two workers",
        "schedule far.toml --placement file --workers 2 --why",
        "3\n--\nsdfw: 19 BadHome actor 0\n  actor 0 is \"in\", an input\n  processor = 3, needs 0..1\n  sdfw explain \
         19 says what to do\n--\n",
    ),
    (
        "the same of a run",
        "run far.toml in.wav out.wav --runner rows --placement file --workers 3 --why",
        "3\n--\nsdfw: 19 BadHome actor 0\n  actor 0 is \"in\", an input\n  processor = 3, needs 0..2\n  sdfw explain \
         19 says what to do\n--\n",
    ),
    (
        "a deadlock before an IN that is not there",
        "run stuck.toml none.wav out.wav",
        "3\n--\nsdfw: 10 Deadlock\nin 1 of 1\nadd 0 of 1 short link 3\nfork 0 of 1 short link 1\nout 0 of 1 short \
         link 2\n--\n",
    ),
    (
        "an IN that is not there before an OUT that is read",
        "run plain.toml none.wav plain.toml",
        "5\n--\nsdfw: 47 Read\n--\n",
    ),
    (
        "an OUT that is the second coefficient file",
        "run twice.toml in.wav three.toml",
        "2\n--\nerror: OUT is the same file as the coefficient file three.toml\n--\n",
    ),
    (
        "eight coefficient files",
        "run eight.toml in.wav out.wav",
        "0\n--\n--\n<5 -5>",
    ),
    (
        "two coefficient files that are not there",
        "run lacks/twice.toml in.wav out.wav --why",
        "3\n--\nsdfw: 58 NoFile file one.toml\n  actor 1 is \"same\", a fir\n  \"one.toml\": entity not found\n  \
         \"three.toml\": entity not found\n  sdfw explain 58 says what to do\n--\n",
    ),
    (
        "a coefficient file that is no document",
        "run torn/filtered.toml in.wav out.wav --why",
        "3\n--\nsdfw: 49 NotToml file one.toml\n  \"one.toml\": TOML parse error at line 2, column 22: invalid \
         string\n  sdfw explain 49 says what to do\n--\n",
    ),
    (
        "a graph file whose path is that of standard output",
        "run - in.wav -",
        "0\n<5 -5>--\n--\n",
    ),
    (
        "how a run goes, and then its fault",
        "run plain.toml none.wav out.wav --parallel 1 --why",
        "5\n--\none thread: there is one worker\nsdfw: 47 Read\n…",
    ),
    (
        "an IN that is not there before a FILE that is read",
        "profile commented.toml none.wav --write commented.toml",
        "5\n--\nsdfw: 47 Read\n…",
    ),
];

/// Files that a profile does not write. Refuses a file that is read and written, and lines that are printed although
/// the file is not written. Refuses also a sound that is looked at before the graph file.
const UNWRITTEN: &[Row] = &[
    (
        "a FILE that is GRAPH",
        "profile commented.toml in.wav --write commented.toml",
        "2\n--\nerror: FILE is the same file as GRAPH\n--\n",
    ),
    (
        "a FILE that is IN",
        "profile commented.toml in.wav --write in.wav",
        "2\n--\nerror: FILE is the same file as IN\n--\n",
    ),
    (
        "a FILE that is a coefficient file",
        "profile filtered.toml in.wav --write one.toml",
        "2\n--\nerror: FILE is the same file as the coefficient file one.toml\n--\n",
    ),
    (
        "a GRAPH without lines for actors",
        "profile plain.toml in.wav --write made/measured.toml",
        "2\n--\nerror: GRAPH has 0 lines [[actor]] for 2 actors: costs need one for each\n--\n",
    ),
    (
        "a GRAPH with one line for two actors",
        "profile spaced.toml in.wav --write made/measured.toml",
        "2\n--\nerror: GRAPH has 1 line [[actor]] for 2 actors: costs need one for each\n--\n",
    ),
    (
        "a cost in another form, and the actor by its name",
        "profile underscored.toml in.wav --write made/measured.toml",
        "2\n--\nerror: the cost of the actor \"out\" must be on a line of its own in GRAPH, like `cost = 12`\n--\n",
    ),
    (
        "no lines for actors before an IN that is no sound",
        "profile plain.toml one.toml --write made/measured.toml",
        "2\n--\nerror: GRAPH has 0 lines [[actor]] for 2 actors…\n--\n",
    ),
    (
        "a FILE for whose path memory is refused",
        "profile commented.toml in.wav --write no-memory",
        "6\n--\nsdfw: 1 OutOfMemory\n--\n",
    ),
    (
        "a FILE that can't be made",
        "profile commented.toml in.wav --write elsewhere.toml",
        "5\n--\nsdfw: 48 Write\n--\n",
    ),
];

#[test]
fn what_is_told_of_faults(rt: HostRuntime) -> Result<(), Fail> {
    expect_rows(&rt, FAULTS)?;
    expect_rows(&rt, WHY)?;
    expect_rows(&rt, BESIDE)?;
    expect_rows(&rt, UNWRITTEN)
}
