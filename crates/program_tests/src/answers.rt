//! Tests of what commands print, over files in memory.

use crate::commands::{Row, expect_rows, told};
use std::fmt::Display;
use std::test::Fail;
use std::thread::Threads;
use std::time::Clock;
use test_texts::row_says;

/// The table of kinds of `docs/FORMATS.md`, and the keys that every actor may have.
const KINDS: &str = "0
input: channel 0..7, block 1..1024 (1)
output: channel 0..7, block 1..1024 (1)
fir: up 1..64 (1), down 1..64 (1), shift 0..15, taps or file: 1..1024 values of -32768..32767
decimate: factor 1..64
interpolate: factor 1..64
add: ways 2..16
fork: ways 2..16
gain: gain -32768..32767, shift 0..15
delay: length 0..65536
table: offset of 32 bits, values or file: 1..65536 values of 32 bits
deal, format 2: ways 2..16, run 1..64 (1)
gather, format 2: ways 2..16, run 1..64 (1)
clip, format 2: least -32768..32767 (-32768), greatest least..32767 (32767)
offset, format 2: value -32768..32767
every kind: processor 0..15 or absent, cost 1..1000000 (1)
--
--
";

/// The schedules of `begun.toml` for one worker. There is none with `in` on processor 1, and all others are alike. The
/// tables don't depend on the policy, and `in` comes first, as the lower of two actors of one level. A long block has
/// 1,024 periods, which move 1,024 samples on a channel.
const COMPARED: &str = "0
policy placement workers blocking     makespan  speedup    rows        samples
round  hu              1        1           *2    *1.00      *2             *3
round  homed           1        1           *2    *1.00      *2             *3
round  file            1               refused 19
round  spread          1     1024        *2048    *1.00   *2048          *1026
lean   hu              1        1           *2    *1.00      *2             *3
lean   homed           1        1           *2    *1.00      *2             *3
lean   file            1               refused 19
lean   spread          1     1024        *2048    *1.00   *2048          *1026
runs   hu              1        1           *2    *1.00      *2             *3
runs   homed           1        1           *2    *1.00      *2             *3
runs   file            1               refused 19
runs   spread          1     1024        *2048    *1.00   *2048          *1026
--
--
";

/// Commands on standard output. Refuses a program that schedules by the default options.
const ANSWERS: &[Row] = &[
    (
        "a check",
        "check plain.toml",
        "0\nactors 2\nlinks 1\nperiod 2\nq in 1\nq out 1\ninput 1 output 1\n--\n--\n",
    ),
    (
        "a schedule by its options",
        "schedule begun.toml --blocking 3 --workers 2 --policy lean --placement file",
        "0\nperiod 2\nq in 1\nq out 1\norder out in\nblocking 3\nworkers 2\nrows 6\nrow out.0 -\nrow - in.0\nrow \
         out.1 -\nrow - in.1\nrow out.2 -\nrow - in.2\ncapacity in:0 out:0 2\n--\n--\n",
    ),
    (
        "an analysis",
        "analyze begun.toml --workers 2",
        "0\nmakespan 1\nwork 2\nspan 1\nbound 1\nspeedup 2.00 of 2\nworker 0 100 %\nworker 1 100 %\nsamples held \
         3, 12 bytes\ncapacity in:0 out:0 3, 12 bytes\n--\n--\n",
    ),
    (
        "a fault by its number",
        "explain 11",
        "0\n11 BlockingFactor\nmeans: The number of periods in a block is out of range. The program refuses it as a \
         mistake of usage.\nlimits: 1 to 64\nremedy: Change `--blocking`.\n--\n--\n",
    ),
    (
        "a fault by its name",
        "explain WorkerCount",
        "0\n12 WorkerCount\nmeans: The number of workers is out of range. The program refuses it as a mistake of \
         usage.\nlimits: 1 to 16\nremedy: Change `--workers`.\n--\n--\n",
    ),
    ("a version", "--version", "0\nsdfw 0.1.0\n--\n--\n"),
    (
        "schedules compared",
        "analyze begun.toml --compare",
        COMPARED,
    ),
];

/// The overview of all commands. A group's head stands above its commands, in the order in which they are met.
const OVERVIEW: &str = "0
A workbench for synchronous dataflow graphs over WAV files

Usage: sdfw <COMMAND>

Process sound:
  run       Processes a WAV file, or several
  resample  Writes a design that converts between two rates
  fir       Prints a coefficient file for an actor of kind fir

Understand a design:
  check     Checks a graph file and prints its period
  explain   Says what a fault means and what to do about it
  kinds     Lists the kinds of actors, their keys and limits

Schedule a design:
  schedule  Prints a schedule of a graph file for some workers
  analyze   Prints how long a schedule takes and what its links hold
  draw      Draws a graph and its schedule
  profile   Measures each actor's share of the time of a run

Options:
  -h, --help     Print help
  -V, --version  Print version

Examples:
  sdfw resample 44100 48000 converter --channels 2
…
Exit status:
  0  success
  2  a mistake on the command line
…
More:
…docs/FORMATS.md …
--
--
";

/// Help, and the kinds of actors, on standard output. Refuses a program that takes help for a fault, and a `run` whose
/// options for the schedule come first.
const HELP: &[Row] = &[
    ("an overview", "--help", OVERVIEW),
    (
        "a run's options, those for the schedule last",
        "run -h",
        "0\n…Usage: sdfw run [OPTIONS] <GRAPH> <IN> <OUT>\n…\nOptions:\n      --parallel [<M>]…\n      --into \
         <FOLDER>…\n      --open-ended…\n      --no-why…\n\nOptions for the schedule:\n      --blocking <J>…\n      \
         --patience <T>…\n\nExamples:\n…",
    ),
    (
        "a path in place of a number",
        "run --parallel plain.toml in.wav out.wav",
        "2\n--\nerror: --parallel takes the number after it: put it last, or write --parallel=4\n…",
    ),
    (
        "several files without a folder",
        "run plain.toml in.wav out.wav more.wav",
        "2\n--\nerror: unexpected argument 'more.wav' found\n\n  tip: several files go into a folder: '--into out'\n…",
    ),
    (
        "another mistake of a run",
        "run plain.toml in.wav out.wav --inot made",
        "2\n--\nerror: unexpected argument '--inot' found\n\n  tip: a similar argument exists: '--into'\n…",
    ),
    (
        "a fault's number and another's name",
        "explain 10 Read",
        "2\n--\nerror: the fault Read has the number 47\n…",
    ),
    (
        "help",
        "check -h",
        "0\nChecks a graph file and prints its period\n\nUsage: sdfw check [OPTIONS] <GRAPH>\n\nArguments:\n  \
         <GRAPH>  The graph file\n\nOptions:\n      --why     Says more about a fault: names, values and limits\n      \
         --no-why  Prints only the short messages, as to a pipe or a log\n      --json    Prints JSON, also for a \
         fault\n  -h, --help    Print help (see more with '--help')\n\n\
         Examples:\n  sdfw check graph.toml\n  sdfw check graph.toml --why\n--\n--\n",
    ),
    (
        "longer help",
        "help kinds",
        "0\nLists the kinds of actors, their keys and limits: a line for each kind, and a last one for the keys\n\
         that every actor may have. A number in parentheses is the default.\n\n\
         Usage: sdfw kinds [OPTIONS]\n\nOptions:\n      --json\n          Prints JSON, with the ports of each \
         kind: one value on one line. Errors are printed as JSON too, on standard error\n\n  -h, --help\n          \
         Print help (see a summary with '-h')\n\nExamples:\n  \
         sdfw kinds\n  sdfw kinds | grep fir\n  sdfw kinds --json\n--\n--\n",
    ),
    (
        "longer help of an option",
        "draw --help",
        "0\nDraws a graph and its schedule as one SVG…Which worker does a firing, and in which row of the table:…",
    ),
    ("kinds", "kinds", KINDS),
];

/// Commands that print JSON. Refuses text in its place, output of another command, and a fault that is a line of text.
const IN_JSON: &[Row] = &[
    (
        "kinds",
        "kinds --json",
        "0\n{\"keys\":[…,\"name\":\"offset\",\"outputs\":1,\"puts\":1,\"since\":2,\"takes\":1}]}\n--\n--\n",
    ),
    (
        "a check",
        "check plain.toml --json",
        "0\n{\"actors\":[{\"firings\":1,\"name\":\"in\"},{\"firings\":1,\"name\":\"out\"}],\"input\":1,\
         \"links\":[{\"from\":{\"actor\":\"in\",\"port\":0},\"to\":{\"actor\":\"out\",\"port\":0}}],\"output\":1,\
         \"period\":2}\n--\n--\n",
    ),
    (
        "a schedule",
        "schedule plain.toml --json --policy lean",
        "0\n{\"actors\":[{\"firings\":1,\"name\":\"in\",\"worker\":0},{\"firings\":1,\"name\":\"out\",\
         \"worker\":0}],\"blocking\":1,\"links\":[{\"capacity\":1,\"from\":{\"actor\":\"in\",\"port\":0},\
         \"to\":{\"actor\":\"out\",\"port\":0}}],\"order\":[{\"actor\":\"in\",\"firings\":1},{\"actor\":\"out\",\
         \"firings\":1}],\"period\":2,\"placement\":\"homed\",\"policy\":\"lean\",\"rows\":[[{\"actor\":\"in\",\
         \"firing\":0}],[{\"actor\":\"out\",\"firing\":0}]],\"workers\":1}\n--\n--\n",
    ),
    (
        "an analysis",
        "analyze plain.toml --json --blocking 3",
        "0\n{\"blocking\":3,\"bound\":6,\"links\":[{\"capacity\":2,\"from\":{\"actor\":\"in\",\"port\":0},\
         \"to\":{\"actor\":\"out\",\"port\":0}}],\"loads\":[6],\"makespan\":6,\"placement\":\"homed\",\
         \"policy\":\"round\",\"samples\":2,\"span\":4,\"speedup_hundredths\":100,\"work\":6,\"workers\":1}\n--\n--\n",
    ),
    (
        "a coefficient file that is not there",
        "check lacking.toml --json",
        "3\n--\n{\"actor\":1,\"fault\":58,\"file\":\"two.toml\",\"hint\":[\"actor 1 is \\\"same\\\", a fir\",\
         \"\\\"two.toml\\\": entity not found\",\"sdfw explain 58 says what to \
         do\"],\"key\":\"file\",\"name\":\"NoFile\",\"path\":\"lacking.toml\",\
         \"value\":\"\\\"two.toml\\\"\"}\n--\n",
    ),
    (
        "a design that is not there",
        "schedule none.toml --json",
        "5\n--\n{\"fault\":47,\"hint\":[\"\\\"none.toml\\\": entity not found\",\"sdfw explain 47 says what to \
         do\"],\"name\":\"Read\",\
         \"path\":\"none.toml\"}\n--\n",
    ),
    (
        "a comparison of a design that is not there",
        "analyze none.toml --compare --json",
        "5\n--\n{\"fault\":47,\"hint\":[\"\\\"none.toml\\\": entity not found\",\"sdfw explain 47 says what to \
         do\"],\"name\":\"Read\",\
         \"path\":\"none.toml\"}\n--\n",
    ),
    (
        "a mistake in the words",
        "check --json",
        "2\n--\n{\"fault\":0,\"name\":\"Usage\",\"text\":\"error: …\"}\n--\n",
    ),
    (
        "an actor without a home",
        "analyze plain.toml --placement file --json",
        "3\n--\n{\"actor\":0,\"fault\":19,\"hint\":[\"actor 0 is \\\"in\\\", an input\",\
         \"processor needs 0..0\",\"sdfw explain 19 says what to \
         do\"],\"key\":\"processor\",\"limits\":\"0..0\",\"name\":\"BadHome\",\
         \"path\":\"plain.toml\"}\n--\n",
    ),
    (
        "the same by two workers",
        "analyze far.toml --placement file --workers 2 --json --why",
        "3\n--\n{\"actor\":0,\"fault\":19,\"hint\":[\"actor 0 is \\\"in\\\", an input\",\
         \"processor = 3, needs 0..1\",\"sdfw explain 19 says what to \
         do\"],\"key\":\"processor\",\"limits\":\"0..1\",\"name\":\"BadHome\",\
         \"path\":\"far.toml\",\"value\":\"3\"}\n--\n",
    ),
    (
        "a number outside its limits",
        "check wide.toml --why --json",
        "3\n--\n{\"actor\":0,\"column\":1,\"fault\":28,\"hint\":[\"actor 0 is \\\"half\\\", a fir\",\
         \"up = 147, needs 1..64\",\"sdfw explain 28 says what to \
         do\"],\"key\":\"up\",\"limits\":\"1..64\",\"line\":6,\"name\":\"KitValue\",\
         \"path\":\"wide.toml\",\"value\":\"147\"}\n--\n",
    ),
    (
        "a file that ends too soon",
        "check broken.toml --json",
        "3\n--\n{\"column\":…,\"fault\":49,\"hint\":[\"\\\"broken.toml\\\": TOML parse error at line 2, column \
         …\",\"sdfw explain 49 says what to \
         do\"],\"line\":2,\"name\":\"NotToml\",\"path\":\"broken.toml\",\"top\":true}\n--\n",
    ),
    (
        "a deadlock",
        "schedule stuck.toml --json",
        "3\n--\n{\"actors\":[…],\"fault\":10,\"hint\":[\"link 3 is fork:1 -> add:1, holds 0, needs 1\",…,\"sdfw \
         explain 10 says what to do\"],\
         \"name\":\"Deadlock\",\"path\":\"stuck.toml\"}\n--\n",
    ),
    (
        "the levels of a run in parallel",
        "run plain.toml in.wav out.wav --json --parallel --why",
        "0\n{\"outputs\":[{\"frames\":2,\"full_scale\":0,\"peak\":5}]}\n--\n--\n<5 -5>",
    ),
    (
        "a sound that is cut off",
        "run plain.toml cut.wav out.wav --json",
        "4\n--\n{\"fault\":43,\"hint\":[\"\\\"cut.wav\\\": ends after 44 bytes, needs 48; `run --open-ended` reads to \
         the end\",\"sdfw explain 43 says what to do\"],\"name\":\"Truncated\",\
         \"path\":\"cut.wav\"}\n--\n<5 -5 to come>",
    ),
    (
        "a sound and levels on one stream",
        "run plain.toml in.wav - --json",
        "2\n--\n{\"fault\":0,\"name\":\"Usage\",\"text\":\"error: --json prints to standard output, so OUT can't be \
         `-`…\"}\n--\n",
    ),
    (
        "schedules compared",
        "analyze plain.toml --compare --json",
        "0\n[{\"blocking\":1,\"makespan\":2,\"placement\":\"hu\",\"policy\":\"round\",\"rows\":2,\
         \"samples\":1,\"speedup_hundredths\":100,\"workers\":1},…",
    ),
];

/// Pictures and profiles. Refuses a picture without the design's names, a graph for Graphviz that is a picture or needs
/// a schedule, and a fault that is drawn. Refuses also a profile that lacks an actor or its firings, or writes a sound.
const VIEWS: &[Row] = &[
    (
        "a picture, with the names of its workers",
        "draw plain.toml --workers 2",
        "0\n<svg …>worker 1<…</svg>\n--\n--\n",
    ),
    (
        "a graph for Graphviz",
        "draw plain.toml --dot",
        "0\ndigraph …",
    ),
    (
        "the graph of a design that has no schedule",
        "draw stuck.toml --dot",
        "0\ndigraph {\n…",
    ),
    (
        "a design that has no schedule",
        "draw stuck.toml",
        "3\n--\nsdfw: 10 Deadlock\n…",
    ),
    (
        "a profile",
        "profile plain.toml in.wav",
        "0\nshare in … %, 64 firings of …\nshare out …\ncost in …\ncost out …--\n--\n",
    ),
    (
        "a sound that is not there",
        "profile plain.toml none.wav",
        "5\n--\nsdfw: 47 Read\n--\n",
    ),
];

/// Runs that follow their options. Refuses a program that plans by the default options. With `in` on processor 1 a plan
/// for one worker has a fault, and so has one over rings without homes, or with a long block.
const RUNS: &[Row] = &[
    (
        "all options",
        "run begun.toml in.wav out.wav --blocking 3 --workers 2 --policy lean --placement file --runner rings \
         --patience 7",
        "0\n--\n--\n<7 8>",
    ),
    (
        "two workers, runner one",
        "run blocks.toml in.wav no.wav --workers 2 --runner one",
        "5\n--\nsdfw: 48 Write\n--\n",
    ),
    (
        "two workers, placement hu",
        "run blocks.toml in.wav no.wav --workers 2 --placement hu",
        "5\n--\nsdfw: 48 Write\n--\n",
    ),
    (
        "two workers, policy lean",
        "run blocks.toml in.wav no.wav --workers 2 --policy lean",
        "5\n--\nsdfw: 48 Write\n--\n",
    ),
    (
        "rings without homes",
        "run blocks.toml in.wav out.wav --runner rings --workers 2 --placement hu",
        "3\n--\nsdfw: 30 NotHomed\n--\n",
    ),
    (
        "a home past the last worker",
        "run begun.toml in.wav out.wav --runner rows --placement file --workers 1",
        "3\n--\nsdfw: 19 BadHome actor 0\n--\n",
    ),
    (
        "a long block",
        "run long.toml in.wav out.wav --runner rows --blocking 64 --workers 2",
        "3\n--\nsdfw: 13 BlockTooLong\n--\n",
    ),
    (
        "a long block why",
        "run long.toml in.wav out.wav --runner rows --blocking 64 --workers 2 --why",
        "3\n--\nsdfw: 13 BlockTooLong\n  a period has 2047 firings, so --blocking can be at most 32\n  sdfw explain 13 \
         says what to do\n--\n",
    ),
];

#[test]
fn what_commands_answer(rt: HostRuntime) -> Result<(), Fail> {
    expect_rows(&rt, ANSWERS)?;
    expect_rows(&rt, HELP)?;
    expect_rows(&rt, IN_JSON)?;
    expect_rows(&rt, VIEWS)?;
    expect_rows(&rt, RUNS)
}

/// A name, a line, a text, and how often the line's report has it. Counted are line ends (four are not of schedules),
/// schedules by two workers, and coefficient files. Refuses a comparison by the default options, since each policy and
/// placement has a line for two workers. Refuses also a conversion in two stages that writes the first alone.
const COUNTED: &[(&str, &str, &str, &str)] = &[
    (
        "lines",
        "analyze begun.toml --compare --workers 2",
        "\n",
        "28",
    ),
    (
        "schedules in JSON",
        "analyze begun.toml --compare --json --workers 2",
        "\"workers\":2",
        "12",
    ),
    (
        "coefficient files",
        "resample 44100 48000 made --attenuation 40 --fast",
        "# fir up ",
        "2",
    ),
];

fn times<T: Threads + AllocGlobal + Clock + Clone + Drop + Sync>(
    rt: &T,
    line: &str,
    what: &str,
) -> Result<String, Fail> {
    let told = told(rt, line)?;
    let parts = told.as_str().split(what).count();
    format!(in rt.alloc(); "{}", parts.saturating_sub(1)).map_err(Fail::from)
}

#[test]
fn how_often(rt: HostRuntime) -> Result<(), Fail> {
    for (name, line, what, wanted) in COUNTED {
        row_says(name, times(&rt, line, what), wanted)?;
    }
    Ok(())
}

/// Returns what is said of a fault by its name or its number.
fn explained<T: Threads + AllocGlobal + Clock + Clone + Drop + Sync>(
    rt: &T,
    fault: impl Display + Drop,
) -> Result<String, Fail> {
    let line = format!(in rt.alloc(); "explain {fault}")?;
    told(rt, &line)
}

/// Returns the name of the fault that `text` explains. It is behind the first space, at the end of a line.
fn name_in(text: &str) -> &str {
    let Some((_, rest)) = text.split_once(' ') else {
        return "";
    };
    match rest.split_once('\n') {
        Some((name, _)) => name,
        None => "",
    }
}

/// Checks that a fault is explained by its name as by its number.
fn is_named<T: Threads + AllocGlobal + Clock + Clone + Drop + Sync>(
    rt: &T,
    number: u32,
) -> Result<(), Fail> {
    let text = explained(rt, number)?;
    let name = name_in(&text);
    row_says(name, explained(rt, name), text.as_str())
}

/// Tests that each fault is explained by name. Refuses a program that does not look names up.
#[test]
fn names_are_explained(rt: HostRuntime) -> Result<(), Fail> {
    for number in 1..=63 {
        is_named(&rt, number)?;
    }
    Ok(())
}
