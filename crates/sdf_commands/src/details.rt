//! What a diagnostic says about a fault, as members of its JSON.

use crate::diagnostics::why;
use sdf_document::Place;
use sdf_faults::Fault;
use sdf_file::FileFault;
use sdf_io::files::Sources;
use sdf_json::Details;
use sdf_options::Options;
use sdf_prec::PrecFault;
use sdf_why::{DesignFiles, Facts, document_facts, home_facts, net_facts};
use std::alloc::{AllocError, Global};
use std::path::Path;

/// Returns what `fault` of a design is about, if it is about a place in its files.
fn facts_of(
    alloc: Global,
    fault: &Fault,
    options: &Options,
    sources: &Sources,
) -> Result<Option<Facts>, AllocError> {
    let given = DesignFiles {
        graph: sources.graph.as_slice(),
        files: sources.files.as_slice(),
    };
    match fault {
        Fault::File(FileFault::Document(fault)) => Ok(Some(document_facts(alloc, fault, given)?)),
        Fault::File(FileFault::Net(fault)) => Ok(Some(net_facts(alloc, *fault, given)?)),
        Fault::Table(PrecFault::BadHome { actor }) => {
            Ok(Some(home_facts(alloc, options.workers, *actor, given)?))
        }
        _ => Ok(None),
    }
}

/// Returns the path of the first file that the system refused, if it refused one.
fn refused_path(alloc: Global, sources: &Sources) -> Result<Option<String>, AllocError> {
    match sources.refused.first() {
        Some(refused) => Ok(Some(String::from_str(alloc, refused.name.as_str())?)),
        None => Ok(None),
    }
}

/// Returns the path of the file that has `fault`: the design's, the sound, or a file that the system refused.
fn path_of(alloc: Global, fault: &Fault, sources: &Sources) -> Result<Option<String>, AllocError> {
    match fault {
        Fault::Read | Fault::Write => refused_path(alloc, sources),
        Fault::Wav(_) | Fault::ChannelsMissing | Fault::RateNotWhole => {
            Ok(Some(String::from_str(alloc, sources.trace.name.as_str())?))
        }
        Fault::File(_) | Fault::Deadlock(_) | Fault::Table(_) => {
            Ok(Some(String::from_str(alloc, sources.path.as_str())?))
        }
        _ => Ok(None),
    }
}

/// Returns the path of the file at `place`, for a graph file at `graph`.
fn path_at(alloc: Global, graph: &str, place: &Place) -> Result<String, AllocError> {
    match place {
        Place::File(name) => {
            let path = Path::new(graph).with_file_name(alloc, name.as_str())?;
            String::from_str(alloc, path.as_str())
        }
        Place::Top | Place::Actor(_) | Place::Link(_) => String::from_str(alloc, graph),
    }
}

/// Returns the link at `place`, if it is one.
fn link_at(place: &Place) -> Option<usize> {
    match place {
        Place::Link(link) => Some(*link),
        Place::Top | Place::Actor(_) | Place::File(_) => None,
    }
}

/// Returns `line` without the two blanks that begin it.
fn without_blanks(line: &str) -> &str {
    match line.strip_prefix("  ") {
        Some(rest) => rest,
        None => line,
    }
}

/// Returns the lines of a diagnostic, without the blanks before them.
fn hint_of(alloc: Global, told: &str) -> Result<Vec<String>, AllocError> {
    let mut lines = Vec::new(alloc);
    for line in told.lines() {
        lines.push(String::from_str(alloc, without_blanks(line))?)?;
    }
    Ok(lines)
}

/// Adds `facts` about a place in the files of a design to `details`.
fn take_facts(
    alloc: Global,
    details: &mut Details,
    sources: &Sources,
    mut facts: Facts,
) -> Result<(), AllocError> {
    details.path = Some(path_at(alloc, sources.path.as_str(), &facts.place)?);
    details.link = link_at(&facts.place);
    details.actor = facts.actor;
    if let Some(spot) = facts.spot {
        details.line = Some(spot.line);
        details.column = Some(spot.column);
    }
    details.key = facts.key.take();
    details.value = facts.value.take();
    details.limits = facts.limits.take();
    Ok(())
}

/// Returns what the files that were read say about `fault`.
pub fn details_of(
    alloc: Global,
    fault: &Fault,
    options: &Options,
    sources: &Sources,
) -> Result<Details, AllocError> {
    let mut details = Details::new(alloc);
    if let Fault::Words(_) = fault {
        return Ok(details);
    }
    details.path = path_of(alloc, fault, sources)?;
    if let Some(facts) = facts_of(alloc, fault, options, sources)? {
        take_facts(alloc, &mut details, sources, facts)?;
    }
    let told = why(alloc, fault, options, sources)?;
    details.hint = hint_of(alloc, told.as_str())?;
    Ok(details)
}
