//! Diagnostics for deadlocks, sounds, blocks and homes, and for files with a message.

use sdf_why::{
    DesignFiles, Halt, Header, block_text, channels_text, deadlock_text, device_text, home_text,
    rate_text, toml_text,
};
use std::alloc::{AllocError, Global};
use std::test::Fail;
use test_texts::says;

/// A loop without initial samples: of four actors only the first can fire.
const STUCK: &str = "format = 1
actor = [{ name = \"in\", kind = \"input\", channel = 0 }, { name = \"add\", kind = \"add\", ways = 2 },
    { name = \"fork\", kind = \"fork\", ways = 2 }, { name = \"out\", kind = \"output\", channel = 0 }]
link = [{ from = \"in\", to = \"add:0\" }, { from = \"add\", to = \"fork\" },
    { from = \"fork:0\", to = \"out\" }, { from = \"fork:1\", to = \"add:1\" }]";

/// A loop without initial samples, behind an output that waits for it and is the first actor.
const BEHIND: &str = "format = 1
actor = [{ name = \"out\", kind = \"output\", channel = 0 }, { name = \"in\", kind = \"input\", channel = 0 },
    { name = \"add\", kind = \"add\", ways = 2 }, { name = \"fork\", kind = \"fork\", ways = 2 }]
link = [{ from = \"in\", to = \"add:0\" }, { from = \"add\", to = \"fork\" },
    { from = \"fork:0\", to = \"out\" }, { from = \"fork:1\", to = \"add:1\" }]";

/// A design that takes three samples from each of two channels and makes two.
const DESIGN: &str = "format = 1
actor = [{ name = \"left\", kind = \"input\", channel = 0, block = 3 },
    { name = \"right\", kind = \"input\", channel = 1, block = 3 },
    { name = \"sum\", kind = \"add\", ways = 2 },
    { name = \"less\", kind = \"fir\", up = 2, down = 3, shift = 0, taps = [1] },
    { name = \"out\", kind = \"output\", channel = 0, processor = 2 }]
link = [{ from = \"left\", to = \"sum:0\" }, { from = \"right\", to = \"sum:1\" }, { from = \"sum\", to = \"less\" },
    { from = \"less\", to = \"out\" }]";

fn sources(text: &str) -> DesignFiles<'_> {
    DesignFiles {
        graph: text.as_bytes(),
        files: &[],
    }
}

/// Returns a diagnostic with the error type of a test.
fn told(text: Result<String, AllocError>) -> Result<String, Fail> {
    Ok(text?)
}

/// Returns `at its line and column` if the diagnostic for a document that ends within a list has them. Otherwise
/// returns the diagnostic.
fn where_toml_stops(alloc: Global) -> Result<String, Fail> {
    let told = toml_text(alloc, "a.toml", b"format = 1\nactor = [\n")?;
    if told
        .as_str()
        .contains("\"a.toml\": TOML parse error at line 3, column 1: ")
    {
        return Ok(String::from_str(alloc, "at its line and column")?);
    }
    Ok(told)
}

/// Documents in which something is there twice: a header with single brackets, one with double brackets, or a key.
const TWICE: &[(&str, &str)] = &[
    (
        "[actor]\n[actor]\n",
        "  \"a.toml\": TOML parse error at line 2, column 1: duplicate key, each actor has double brackets: \
         [[actor]]\n",
    ),
    (
        "[[link]]\n[link]\n",
        "  \"a.toml\": TOML parse error at line 2, column 1: duplicate key, each link has double brackets: \
         [[link]]\n",
    ),
    (
        "actor = []\n[[actor]]\n",
        "  \"a.toml\": TOML parse error at line 2, column 1: duplicate key\n",
    ),
    (
        "format = 1\nformat = 2\n",
        "  \"a.toml\": TOML parse error at line 2, column 1: duplicate key\n",
    ),
];

/// The links of the loop, on which each actor waits for the other, and the link that the output waits for.
const CYCLE: &str =
    "  link 3 is fork:1 -> add:1, holds 0, needs 1\n  link 1 is add:0 -> fork:0, holds 0, needs 1\n  link 2 is fork:0 -> out:0\n";

/// The links of `BEHIND`: the walk comes from the output and enters the loop at the fork.
const ENTERED: &str =
    "  link 1 is add:0 -> fork:0, holds 0, needs 1\n  link 3 is fork:1 -> add:1, holds 0, needs 1\n  link 2 is fork:0 -> out:0\n";

/// The halts of `STUCK`: the input has fired, and each other actor waits.
static HALTS: [Halt; 4] = [
    Halt {
        done: 1,
        short: None,
    },
    Halt {
        done: 0,
        short: Some(3),
    },
    Halt {
        done: 0,
        short: Some(1),
    },
    Halt {
        done: 0,
        short: Some(2),
    },
];

/// The halts of `BEHIND`, in which the output is the first actor.
static LATER: [Halt; 4] = [
    Halt {
        done: 0,
        short: Some(2),
    },
    Halt {
        done: 1,
        short: None,
    },
    Halt {
        done: 0,
        short: Some(3),
    },
    Halt {
        done: 0,
        short: Some(1),
    },
];

/// Tests the diagnostics. A text without a cycle fails here, and so does a search for it only at the first actor that
/// waits.
#[test]
fn sounds_are_told(rt: HostRuntime) -> Result<(), Fail> {
    let alloc = rt.alloc();
    let header = Header {
        rate: 44_101,
        channels: 1,
    };
    says(told(deadlock_text(alloc, &HALTS, sources(STUCK))), CYCLE)?;
    says(told(deadlock_text(alloc, &LATER, sources(BEHIND))), ENTERED)?;
    says(
        told(channels_text(alloc, header, sources(DESIGN))),
        "  the design needs 2 channels, the sound has 1\n  actor 0 is \"left\", an input\n  channel = 0\n  \
        actor 1 is \"right\", an input\n  channel = 1\n",
    )?;
    says(
        told(rate_text(alloc, header, sources(DESIGN))),
        "  44101 * 2 / 3 = 29400 and 2/3\n",
    )?;
    says(
        told(block_text(alloc, sources(DESIGN))),
        "  a period has 8 firings, so --blocking can be at most 8192\n",
    )?;
    says(
        told(home_text(alloc, 2, 4, DESIGN.as_bytes())),
        "  actor 4 is \"out\", an output\n  processor = 2, needs 0..1\n",
    )?;
    says(
        told(device_text(alloc, "a\u{7}.toml", "not found")),
        "  \"a\\u{7}.toml\": not found\n",
    )?;
    says(told(toml_text(alloc, "a.toml", b"format = 1\n")), "")?;
    says(
        told(toml_text(alloc, "a.toml", b"\xFF\xFEf\0o\0")),
        "  \"a.toml\": TOML parse error at line 1, column 1: invalid UTF-8, the file is in UTF-16: save it as UTF-8\n",
    )?;
    says(where_toml_stops(alloc), "at its line and column")?;
    for (text, wanted) in TWICE {
        says(told(toml_text(alloc, "a.toml", text.as_bytes())), wanted)?;
    }
    Ok(())
}
