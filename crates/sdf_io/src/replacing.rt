//! Replacing a file by a complete one. A run writes a new file beside the old one, which stays until the run has ended
//! well.

ghost use Rattle.std.specs.Prelude.{◌≡◌, IfOk, Ok};

use crate::files::{Refused, note_left, or_refuse, refuse};
use crate::overwriting::canonical_path;
use crate::storage::Storage;
use sdf_faults::Fault;
use sdf_options::printable::printable;
use sdf_options::usage_error;
use std::alloc::{AllocError, Global};
use std::io::{self, ErrorKind, Read};

/// The first bytes of the files that a sound may replace: WAV files, their 64-bit form, and Wave64.
const FRONTS: &[&[u8]] = &[b"RIFF", b"RF64", b"riff"];

/// Checks whether a file that begins with `front` is a sound.
fn is_sound(front: &[u8]) -> bool {
    FRONTS.iter().any(|known| front.starts_with(known))
}

/// Reads the first four bytes of a file, or all of them if there are fewer.
fn read_front<S: Storage>(alloc: Global, storage: &S, path: &str) -> io::Result<Vec<u8>> {
    let mut front = Vec::new(alloc);
    storage.open(path)?.take(4).read_to_end(&mut front)?;
    Ok(front)
}

/// Returns the usage error for an OUT with content that is not a sound.
fn no_sound(alloc: Global, path: &str) -> Result<Fault, AllocError> {
    let shown = printable(alloc, path)?;
    let text = format!(in alloc; "OUT is no WAV file: {}", shown.as_str())?;
    Ok(Fault::from(usage_error(alloc, text.as_str())))
}

/// Returns the canonical path of the file that OUT leads to, if it is a plain file with content. Refuses OUT if this
/// content is not a sound, or if the file can't be read or written. Notes in `refused` if the system refuses it.
pub fn place_to_replace<S: Storage>(
    alloc: Global,
    storage: &S,
    path: &str,
    refused: &mut Vec<Refused>,
) -> Result<Option<String>, Fault> {
    if !storage.has_content(path) {
        return Ok(None);
    }
    let read = read_front(alloc, storage, path);
    if !is_sound(&or_refuse(alloc, refused, path, read, Fault::Read)?) {
        return Err(no_sound(alloc, path)?);
    }
    or_refuse(alloc, refused, path, storage.test_write(path), Fault::Write)?;
    let place = match canonical_path(alloc, storage, path)? {
        Some(only) => String::from_str(alloc, only.as_str())?,
        None => String::from_str(alloc, path)?,
    };
    Ok(Some(place))
}

/// The most names that are tried for a part.
const MAX_NAMES: u32 = 1_000;

/// Returns the path of the part of `place` with this `number`: `.part`, `.part2` and so on behind it.
fn part_path(alloc: Global, place: &str, number: u32) -> Result<String, AllocError> {
    if number < 2 {
        format!(in alloc; "{place}.part")
    } else {
        format!(in alloc; "{place}.part{number}")
    }
}

/// Checks whether `path` is the path of a part of `place`.
pub fn is_part_of(path: &str, place: &str) -> bool {
    let Some(behind) = path.strip_prefix(place) else {
        return false;
    };
    match behind.strip_prefix(".part") {
        Some(number) => number.bytes().all(|byte| byte.is_ascii_digit()),
        None => false,
    }
}

/// Creates the first part of `place` whose name no file has. So no other run has it, and no file is overwritten.
fn create_free<S: Storage>(
    alloc: Global,
    storage: &S,
    place: &str,
    refused: &mut Vec<Refused>,
) -> Result<(String, S::Sink), Fault> {
    for number in 1..=MAX_NAMES {
        let path = part_path(alloc, place, number)?;
        match storage.create_new(path.as_str()) {
            Ok(file) => return Ok((path, file)),
            Err(error) if error.kind() == ErrorKind::AlreadyExists => {}
            Err(error) => return Err(refuse(alloc, refused, path.as_str(), &error, Fault::Write)),
        }
    }
    let error = io::Error::from(ErrorKind::AlreadyExists);
    Err(refuse(alloc, refused, place, &error, Fault::Write))
}

/// A new file, and the place that it takes once it is complete.
#[derive(Drop)]
pub struct Part {
    path: String,
    place: String,
}

impl Part {
    /// Creates a part of `place`, with the permissions of the file there, if there is one. Notes in `refused` if the
    /// system refuses it.
    pub fn create<S: Storage>(
        alloc: Global,
        storage: &S,
        place: String,
        refused: &mut Vec<Refused>,
    ) -> Result<(Part, S::Sink), Fault> {
        let (path, file) = create_free(alloc, storage, place.as_str(), refused)?;
        let part = Part { path, place };
        match storage.copy_permissions(part.place.as_str(), part.path.as_str()) {
            Err(error) if error.kind() != ErrorKind::NotFound => {
                let fault = refuse(alloc, refused, part.path.as_str(), &error, Fault::Write);
                part.remove(alloc, storage, refused);
                Err(fault)
            }
            _ => Ok((part, file)),
        }
    }

    /// Removes the part. Notes in `refused` if it is left.
    fn remove<S: Storage>(&self, alloc: Global, storage: &S, refused: &mut Vec<Refused>) {
        let path = self.path.as_str();
        note_left(alloc, refused, path, storage.remove(path));
    }

    /// Moves the part to its place if its run `ended` well, and returns what the run did. Removes the part if the run
    /// failed or the move fails. Notes in `refused` what the system refuses.
    pub fn finish<S: Storage, T: Drop>(
        &self,
        alloc: Global,
        storage: &S,
        ended: Result<T, Fault>,
        refused: &mut Vec<Refused>,
    ) -> Result<T, Fault>
        ensures { IfOk result (λ value. ended ≡ Ok value) }
    {
        let place = self.place.as_str();
        let finished = match ended {
            Ok(value) => {
                let moved = storage.rename(self.path.as_str(), place);
                match or_refuse(alloc, refused, place, moved, Fault::Write) {
                    Ok(()) => Ok(value),
                    Err(fault) => Err(fault),
                }
            }
            Err(fault) => Err(fault),
        };
        if finished.is_err() {
            self.remove(alloc, storage, refused);
        }
        finished
    }
}
