//! The command that helps against a fault.

use sdf_faults::Fault;
use sdf_io::world::STANDARD;
use sdf_options::printable::printable;
use sdf_wav::FormatFault;
use std::alloc::{AllocError, Global};

/// Returns the number at the beginning of a fault's text.
fn number_of(told: &str) -> &str {
    match told.split_once(' ') {
        Some((number, _)) => number,
        None => told,
    }
}

/// Returns the line that names `explain`, or no line for a fault of the command line.
fn pointer(alloc: Global, fault: &Fault) -> Result<String, AllocError> {
    if let Fault::Words(_) = fault {
        return Ok(String::new(alloc));
    }
    let told = format!(in alloc; "{fault}")?;
    let number = number_of(told.as_str());
    format!(in alloc; "  sdfw explain {number} says what to do\n")
}

/// Checks whether a shell takes `byte` as it is.
fn is_plain(byte: u8) -> bool {
    byte.is_ascii_alphanumeric() || b"_-./,+:@%=".contains(&byte)
}

/// Returns `word` in quotes for a shell, if it needs them.
fn shell_word(alloc: Global, word: &str) -> Result<String, AllocError> {
    if word.as_bytes().iter().all(|byte| is_plain(*byte)) {
        return String::from_str(alloc, word);
    }
    let inner = word.replace(alloc, "'", "'\\''")?;
    format!(in alloc; "'{}'", inner.as_str())
}

/// Returns `path` in a form that no program takes for an option or the name of a protocol.
fn plain_path(alloc: Global, path: &str) -> Result<String, AllocError> {
    let is_odd = path.starts_with("-") || path.as_bytes().contains(&b':');
    if is_odd && !path.starts_with("/") {
        format!(in alloc; "./{path}")
    } else {
        String::from_str(alloc, path)
    }
}

/// Returns the path of the sound at `path` once it is converted.
fn converted_path(alloc: Global, path: &str) -> Result<String, AllocError> {
    match path.rsplit_once('.') {
        Some((front, "wav" | "WAV")) => format!(in alloc; "{front}-16.wav"),
        Some((front, extension)) if !extension.as_bytes().contains(&b'/') => {
            format!(in alloc; "{front}.wav")
        }
        _ => format!(in alloc; "{path}.wav"),
    }
}

/// Returns the command that converts the sound at `path`, which has this `fault`, if a command can.
fn conversion(alloc: Global, fault: FormatFault, path: &str) -> Result<Option<String>, AllocError> {
    let path = plain_path(alloc, path)?;
    let from = shell_word(alloc, path.as_str())?;
    let to = shell_word(alloc, converted_path(alloc, path.as_str())?.as_str())?;
    let (from, to) = (from.as_str(), to.as_str());
    match fault {
        FormatFault::NotRiff => {
            let command = format!(in alloc; "ffmpeg -i {from} -c:a pcm_s16le {to}")?;
            Ok(Some(command))
        }
        FormatFault::NotPcm16 => {
            let command = format!(in alloc; "sox {from} -b 16 -e signed-integer {to}")?;
            Ok(Some(command))
        }
        _ => Ok(None),
    }
}

/// Returns the command that converts the sound of the name `name` after `fault`, if a command can. Standard input and a
/// name that can't be printed give none.
fn conversion_of(alloc: Global, fault: &Fault, name: &str) -> Result<Option<String>, AllocError> {
    let Fault::Wav(fault) = fault else {
        return Ok(None);
    };
    let shown = printable(alloc, name)?;
    if name == STANDARD || shown.as_str() != name {
        return Ok(None);
    }
    conversion(alloc, *fault, name)
}

/// Returns the line of the command that helps against `fault`: one that converts the sound `name`, or `explain`.
pub(crate) fn remedy_text(alloc: Global, fault: &Fault, name: &str) -> Result<String, AllocError> {
    match conversion_of(alloc, fault, name)? {
        Some(command) => format!(in alloc; "  convert it: {}\n", command.as_str()),
        None => pointer(alloc, fault),
    }
}
