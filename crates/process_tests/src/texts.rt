//! Tests of each fault's line, exit status and explanation.

use crate::fault_rows::{At, DOCUMENTS, Given, NETS, OWN, RUNS, Row, SOUNDS, TABLES, Wrong};
use crate::running::fault_told;
use sdf_cli::explanation;
use sdf_faults::{Fault, Progress, Stalled};
use sdf_file::{DocumentFault, FileFault, Place};
use sdf_options::WordFault;
use sdf_options::printable::printable;
use std::alloc::{AllocError, Global};
use std::test::Fail;
use test_texts::{row_says, says};

/// Returns the number that a text begins with, or 0.
fn number_of(text: &str) -> u32 {
    match text.split(' ').next().map(|word| word.parse::<u32>()) {
        Some(Ok(number)) => number,
        _ => 0,
    }
}

/// Checks whether `text` begins as `meaning` does, and names a place if and only if `meaning` says where.
fn agrees(text: &str, meaning: &str) -> bool {
    match (text.split('\n').next(), meaning.split('\n').next()) {
        (Some(first), Some(begins)) => {
            let placed = first.len() > begins.len();
            first.starts_with(begins) && placed == meaning.contains("\nwhere: ")
        }
        _ => false,
    }
}

/// Checks that a text agrees with the explanation of its number.
fn is_explained(alloc: Global, text: &str) -> Result<(), Fail> {
    let meaning = explanation(alloc, number_of(text))?;
    if agrees(text, meaning.as_str()) {
        return Ok(());
    }
    Err(Fail::new(format_args!("{text:?} is explained by {meaning:?}")))
}

fn place(alloc: Global, at: At) -> Result<Place, AllocError> {
    match at {
        At::Top => Ok(Place::Top),
        At::Actor(actor) => Ok(Place::Actor(actor)),
        At::Link(link) => Ok(Place::Link(link)),
        At::File => Ok(Place::File(String::from_str(alloc, "a.toml")?)),
    }
}

/// Returns the fault `wrong` of a document, at `place` and with its key. `wrong` has a place: `document` makes the
/// other faults itself, so they never come here.
fn placed(wrong: Wrong, place: Place, key: &'static str) -> DocumentFault {
    match wrong {
        Wrong::KitValue(_) => DocumentFault::KitValue(place, key),
        Wrong::NotToml(_) => DocumentFault::NotToml(place),
        Wrong::Format(_) => DocumentFault::Format(place),
        Wrong::MissingKey(_) => DocumentFault::MissingKey(place, key),
        Wrong::WrongType(_) => DocumentFault::WrongType(place, key),
        Wrong::BadName(_)
        | Wrong::ActorCount
        | Wrong::ChannelCount
        | Wrong::UnknownKey(_)
        | Wrong::NameTwice(_)
        | Wrong::UnknownKind(_)
        | Wrong::BadPort(_)
        | Wrong::NoFile => DocumentFault::BadName(place, key),
    }
}

/// Returns the fault `wrong` of a document, with its key.
fn document(alloc: Global, wrong: Wrong, key: &'static str) -> Result<DocumentFault, AllocError> {
    Ok(match wrong {
        Wrong::ActorCount => DocumentFault::ActorCount,
        Wrong::ChannelCount => DocumentFault::ChannelCount,
        Wrong::KitValue(at)
        | Wrong::NotToml(at)
        | Wrong::Format(at)
        | Wrong::MissingKey(at)
        | Wrong::WrongType(at)
        | Wrong::BadName(at) => placed(wrong, place(alloc, at)?, key),
        Wrong::UnknownKey(at) => {
            let own = String::from_str(alloc, key)?;
            DocumentFault::UnknownKey(place(alloc, at)?, own)
        }
        Wrong::NameTwice(actor) => DocumentFault::NameTwice(actor),
        Wrong::UnknownKind(actor) => DocumentFault::UnknownKind(actor),
        Wrong::BadPort(link) => DocumentFault::BadPort(link, key),
        Wrong::NoFile => DocumentFault::NoFile(String::from_str(alloc, key)?),
    })
}

/// Returns a deadlock of actors with two firings a period: how many each did, and the link that it was short of.
fn stalled(alloc: Global, short: &[(&str, u32, Option<usize>)]) -> Result<Stalled, AllocError> {
    let mut actors = Vec::new(alloc);
    for (name, done, short) in short {
        actors.push(Progress {
            name: String::from_str(alloc, name)?,
            done: *done,
            of: 2,
            short: *short,
        })?;
    }
    Ok(Stalled { actors })
}

fn fault_of(alloc: Global, given: Given) -> Result<Fault, AllocError> {
    Ok(match given {
        Given::Net(fault) => Fault::from(FileFault::from(fault)),
        Given::Table(fault) => Fault::from(fault),
        Given::Sound(fault) => Fault::Wav(fault),
        Given::Run(fault) => Fault::from(fault),
        Given::Device(fault) => Fault::from(fault),
        Given::Document(wrong, key) => {
            Fault::File(FileFault::Document(document(alloc, wrong, key)?))
        }
        Given::Deadlock(short) => Fault::Deadlock(stalled(alloc, short)?),
        Given::Memory => Fault::OutOfMemory,
        Given::Words => Fault::Words(WordFault::OutOfMemory),
        Given::BlockingFactor => Fault::BlockingFactor,
        Given::WorkerCount => Fault::WorkerCount,
        Given::ChannelsMissing => Fault::ChannelsMissing,
        Given::RateNotWhole => Fault::RateNotWhole,
    })
}

fn told(alloc: Global, given: Given) -> Result<String, Fail> {
    fault_told(alloc, fault_of(alloc, given)?)
}

/// Checks that a fault has its line and status, and that its number, name and place agree with its explanation.
fn has_line(alloc: Global, (given, code, text): &Row) -> Result<(), Fail> {
    let wanted = format!(in alloc; "{code} sdfw: {text}\n")?;
    row_says(text, told(alloc, *given), &wanted)?;
    is_explained(alloc, text)
}

/// Checks that each fault has its line, its status and its explanation. Appends the numbers to `numbers`.
fn have_lines(alloc: Global, rows: &[Row], numbers: &mut Vec<u32>) -> Result<(), Fail> {
    for row in rows {
        numbers.push(number_of(row.2))?;
        has_line(alloc, row)?;
    }
    Ok(())
}

/// Checks the rows of all faults, and appends their numbers to `numbers`.
fn all_have_lines(alloc: Global, numbers: &mut Vec<u32>) -> Result<(), Fail> {
    have_lines(alloc, NETS, numbers)?;
    have_lines(alloc, TABLES, numbers)?;
    have_lines(alloc, SOUNDS, numbers)?;
    have_lines(alloc, RUNS, numbers)?;
    have_lines(alloc, DOCUMENTS, numbers)?;
    have_lines(alloc, OWN, numbers)
}

/// Returns the numbers from 1 to 63 that are not in `numbers`.
fn others(alloc: Global, numbers: &[u32]) -> Result<String, Fail> {
    let mut others = Vec::new(alloc);
    for number in 1..=63u32 {
        if !numbers.contains(&number) {
            others.push(number)?;
        }
    }
    format!(in alloc; "{:?}", others.as_slice()).map_err(Fail::from)
}

/// Tests the line of each fault. Refuses a fault without its line's end, or with another fault's number.
#[test]
fn each_fault_has_its_line(rt: HostRuntime) -> Result<(), Fail> {
    let mut numbers = Vec::new(rt.alloc());
    all_have_lines(rt.alloc(), &mut numbers)?;
    // There is no fault 61.
    says(others(rt.alloc(), &numbers), "[61]")
}

/// Reports the number that an explanation begins with, and whether it has its parts `means` and `remedy`.
fn parts_of(alloc: Global, number: u32) -> Result<String, Fail> {
    let text = explanation(alloc, number)?;
    let first = text.split(' ').next();
    let means = text.contains("\nmeans: ");
    let remedy = text.contains("\nremedy: ");
    format!(in alloc; "{first:?} {means} {remedy}").map_err(Fail::from)
}

/// Tests that each fault has a meaning, and a remedy unless it never occurs.
#[test]
fn each_fault_is_explained(rt: HostRuntime) -> Result<(), Fail> {
    let alloc = rt.alloc();
    for number in 1..=63u32 {
        let occurs = number != 32 && number != 61;
        let wanted = format!(in alloc; "Some(\"{number}\") true {occurs}")?;
        says(parts_of(alloc, number), &wanted)?;
    }
    says(
        explanation(alloc, 11).map_err(Fail::from),
        "11 BlockingFactor\nmeans: The number of periods in a block is out of range. The program refuses it as a \
         mistake of usage.\nlimits: 1 to 64\nremedy: Change `--blocking`.\n",
    )
}

/// A text, and how it is printed.
const TEXTS: &[(&str, &str)] = &[
    ("", ""),
    ("gain", "gain"),
    ("a\nb", "a\\u{a}b"),
    ("\u{1b}[2J", "\\u{1b}[2J"),
    ("\0\u{1f} ~\u{7f}", "\\u{0}\\u{1f} ~\\u{7f}"),
    ("\u{80}\u{9f}\u{a0}", "\\u{80}\\u{9f}\u{a0}"),
    ("\\u{a} süß €", "\\u{a} süß €"),
];

#[test]
fn control_characters_are_numbers(rt: HostRuntime) -> Result<(), Fail> {
    for (text, wanted) in TEXTS {
        row_says(
            text,
            printable(rt.alloc(), text).map_err(Fail::from),
            wanted,
        )?;
    }
    Ok(())
}
