//! Tests of graph files with measured costs: their texts, refusals, and what the program writes where.

use crate::commands;
use crate::commands::expect_text;
use sdf_profile::costed_text;
use std::test::Fail;
use std::thread::Threads;
use std::time::Clock;
use test_texts::row_says;

/// A graph file with comments, in which one actor has a cost.
pub(crate) const COMMENTED: &str = r#"# half as loud
format = 1

[[actor]] # what comes in
name = "in"
kind = "input"
channel = 0 # the left one

# the cost is a guess
[[actor]]
name = "half"
cost = 3 # a guess
kind = "gain"
gain = 16384
shift = 15

[[actor]]
name = "out"
kind = "output"
channel = 0

[[link]]
from = "in"
to = "half"

[[link]]
from = "half"
to = "out"
"#;

/// A graph file with two actors, of which only one has the line `[[actor]]` in its plain form.
pub(crate) const SPACED: &str = r#"format = 1
[[actor]]
name = "in"
kind = "input"
channel = 0
[[ actor ]]
name = "out"
kind = "output"
channel = 0
[[link]]
from = "in"
to = "out"
"#;

/// `COMMENTED` with the costs 1, 20 and 1,000,000.
pub(crate) const MEASURED: &str = r#"# half as loud
format = 1

[[actor]] # what comes in
name = "in"
kind = "input"
channel = 0 # the left one
cost = 1

# the cost is a guess
[[actor]]
name = "half"
cost = 20 # a guess
kind = "gain"
gain = 16384
shift = 15

[[actor]]
name = "out"
kind = "output"
channel = 0
cost = 1000000

[[link]]
from = "in"
to = "half"

[[link]]
from = "half"
to = "out"
"#;

/// A graph file whose lines end with a carriage return and a line feed, except the last, which has no end.
const RETURNS: &str =
    "format = 1\r\n[[link]]\r\nfrom = \"in\"\r\nto = \"out\"\r\n[[actor]]\r\nname = \"in\"\r\n\
    kind = \"input\"\r\nchannel = 0\r\n[[actor]]\r\nname = \"out\"\r\nkind = \"output\"\r\nchannel = 0";

/// `RETURNS` with the costs 2 and 1.
const RETURNED: &str =
    "format = 1\r\n[[link]]\r\nfrom = \"in\"\r\nto = \"out\"\r\n[[actor]]\r\nname = \"in\"\r\n\
    kind = \"input\"\r\nchannel = 0\r\ncost = 2\r\n[[actor]]\r\nname = \"out\"\r\nkind = \"output\"\r\n\
    channel = 0\r\ncost = 1";

/// Returns the text of `graph` with `costs`, or why there is none.
fn told(rt: &(impl AllocGlobal), graph: &str, costs: &[u32]) -> Result<String, Fail> {
    let alloc = rt.alloc();
    match costed_text(alloc, graph.as_bytes(), &[], costs) {
        Ok(text) => Ok(String::from_utf8(text)?),
        Err(fault) => format!(in alloc; "{fault:?}").map_err(Fail::from),
    }
}

/// A name, a graph file, costs, and its text with them.
const TEXTS: &[(&str, &str, &[u32], &str)] = &[
    ("comments", COMMENTED, &[1, 20, 1_000_000], MEASURED),
    ("again", MEASURED, &[1, 20, 1_000_000], MEASURED),
    ("returns", RETURNS, &[2, 1], RETURNED),
    ("too few", COMMENTED, &[1, 20], "Tables(3)"),
    ("too great", RETURNS, &[1_000_001, 1], "Reading"),
    ("no graph", "[[actor]]\n", &[1], "Reading"),
];

/// Tests texts with costs. Refuses a dropped comment, a cost of another actor, one that is there twice, and a line end
/// of another kind.
#[test]
fn texts_with_costs(rt: HostRuntime) -> Result<(), Fail> {
    for (name, graph, costs, wanted) in TEXTS {
        row_says(name, told(&rt, graph, costs), wanted)?;
    }
    Ok(())
}

/// Calls `told` on a graph of two actors and a link. `first` is the head of the first actor, `more` are lines of the
/// second, and `link` is the head of the link.
fn told_of(rt: &(impl AllocGlobal), first: &str, more: &str, link: &str) -> Result<String, Fail> {
    let graph = format!(in rt.alloc();
        "format = 1\n{first}\nname = \"in\"\nkind = \"input\"\nchannel = 0\n[[actor]]\nname = \"out\"\n\
         kind = \"output\"\n{more}channel = 0\n{link}\nfrom = \"in\"\nto = \"out\"\n"
    )?;
    told(rt, graph.as_str(), &[4, 5])
}

/// Forms of a cost or a table into which no cost is written, and why.
const FORMS: &[(&str, &str, &str, &str, &str)] = &[
    ("no blanks", "[[actor]]", "cost=3\n", "[[link]]", "Cost(1)"),
    (
        "quotes",
        "[[actor]]",
        "\"cost\" = 3\n",
        "[[link]]",
        "Cost(1)",
    ),
    (
        "indented",
        "[[actor]]",
        "  cost = 3\n",
        "[[link]]",
        "Cost(1)",
    ),
    (
        "line through",
        "[[actor]]",
        "cost = 1_000\n",
        "[[link]]",
        "Cost(1)",
    ),
    (
        "another base",
        "[[actor]]",
        "cost = 0x10\n",
        "[[link]]",
        "Cost(1)",
    ),
    ("wide head", "[[ actor ]]", "", "[[link]]", "Tables(1)"),
    ("quoted head", "[[\"actor\"]]", "", "[[link]]", "Tables(1)"),
    ("indented head", " [[actor]]", "", "[[link]]", "Tables(1)"),
    ("indented link", "[[actor]]", "", "  [[link]]", "Reading"),
];

/// Tests other forms of a graph file. Refuses a wrong text in place of a refusal.
#[test]
fn other_forms(rt: HostRuntime) -> Result<(), Fail> {
    for (name, first, more, link, wanted) in FORMS {
        row_says(name, told_of(&rt, first, more, link), wanted)?;
    }
    Ok(())
}

/// Returns a text with `N` in place of each cost.
fn masked(rt: &(impl AllocGlobal), text: &str) -> Result<String, Fail> {
    let mut masked = String::new(rt.alloc());
    for line in text.lines() {
        let (head, rest) = match line.strip_prefix("cost = ") {
            Some(cost) => (
                "cost = N",
                cost.trim_start_matches(|digit: char| digit.is_ascii_digit()),
            ),
            None => ("", line),
        };
        writeln!(masked, "{head}{rest}")?;
    }
    Ok(masked)
}

/// Runs a profile that writes `file`, and returns the report with `N` in place of each cost.
fn profiled<T: Threads + AllocGlobal + Clock + Clone + Drop + Sync>(
    rt: &T,
    file: &str,
) -> Result<String, Fail> {
    let line = format!(in rt.alloc(); "profile commented.toml in.wav --write {file}")?;
    masked(rt, commands::told(rt, &line)?.as_str())
}

/// Checks that a profile writes `text` to a file, and prints its lines.
fn is_written<T: Threads + AllocGlobal + Clock + Clone + Drop + Sync>(
    rt: &T,
    text: &str,
) -> Result<(), Fail> {
    let wanted = format!(in rt.alloc(); "0\nshare in …\n--\n--\n{text}")?;
    expect_text("a file", profiled(rt, "made/measured.toml"), &wanted)
}

/// Checks that a profile writes `text` to standard output, and prints nothing else.
fn is_printed<T: Threads + AllocGlobal + Clock + Clone + Drop + Sync>(
    rt: &T,
    text: &str,
) -> Result<(), Fail> {
    let wanted = format!(in rt.alloc(); "0\n{text}--\n--\n")?;
    expect_text("standard output", profiled(rt, "-"), &wanted)
}

/// Tests profiles that are written. To a file, refuses another text and lines that are not printed. To standard output,
/// refuses lines beside the text, and a file that is made.
#[test]
fn profiles_are_written(rt: HostRuntime) -> Result<(), Fail> {
    let text = masked(&rt, MEASURED)?;
    is_written(&rt, &text)?;
    is_printed(&rt, &text)
}
