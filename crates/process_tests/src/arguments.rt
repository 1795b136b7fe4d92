//! Tests of the words that a program is started with.

use crate::running::status_told;
use sdf_cli::arguments::{Arguments, read_arguments};
use sdf_faults::Fault;
use std::alloc::Global;
use std::env::{Env, FillError};
use std::test::Fail;
use test_texts::row_says;

/// The words of a program. The first is its name.
#[derive(Clone, Copy)]
struct Environment<'a> {
    words: &'a [&'a [u8]],
}

impl Env for Environment<'_> {
    fn arg(&self, i: usize, buf: &mut [u8]) -> Result<usize, FillError> {
        let Some(word) = self.words.get(i) else {
            return Err(FillError::NotPresent);
        };
        if word.len() > buf.len() {
            return Err(FillError::TooLong);
        }
        for (slot, byte) in buf.iter_mut().zip(*word) {
            *slot = *byte;
        }
        Ok(word.len())
    }

    fn var(&self, _name: &str, _buf: &mut [u8]) -> Result<usize, FillError> {
        Err(FillError::NotPresent)
    }

    fn var_at(&self, _i: usize, _buf: &mut [u8]) -> Result<usize, FillError> {
        Err(FillError::NotPresent)
    }
}

/// Reports how many words are read, the first, whether all are as they were given, and the first that is not UTF-8.
fn read_told(alloc: Global, read: &Arguments, words: &[&[u8]]) -> Result<String, Fail> {
    let first = read.words.first();
    let same = are_read(&read.words, words);
    let unread = read.unread;
    format!(in alloc; "{} {first:?} {same} {unread:?}", read.words.len()).map_err(Fail::from)
}

/// Reports on the words that are read of `words`, or returns the exit status.
fn told<'a>(alloc: Global, words: &'a [&'a [u8]]) -> Result<String, Fail> {
    match read_arguments(&Environment { words }, alloc) {
        Ok(read) => read_told(alloc, &read, words),
        Err(fault) => status_told(alloc, Fault::from(fault)),
    }
}

/// Checks whether each word is read as it was given.
fn are_read(read: &[String], words: &[&[u8]]) -> bool {
    for (word, wanted) in read.iter().zip(words) {
        if word.as_bytes() != *wanted {
            return false;
        }
    }
    read.len() == words.len()
}

/// Reports on many words, among them an empty one and one of 5,000 letters.
fn many_told(alloc: Global) -> Result<String, Fail> {
    let long = vec![in alloc; b'x'; 5000]?;
    let mut words = [b"word".as_slice(); 23];
    words[20] = b"".as_slice();
    words[21] = &long;
    words[22] = b"last".as_slice();
    told(alloc, &words)
}

/// Tests that all words are read. Refuses a reader that drops the words after an empty one, or after one that is not
/// UTF-8. Refuses also one that asks for no memory for a long word, or names the last word that is not UTF-8 in place
/// of the first.
#[test]
fn arguments_are_text(rt: HostRuntime) -> Result<(), Fail> {
    let alloc = rt.alloc();
    let long = vec![in alloc; b'x'; 1000]?;
    let words = [b"sdfw".as_slice(), &long];
    row_says(
        "a long word",
        told(alloc, &words),
        "2 Some(\"sdfw\") true None",
    )?;
    row_says(
        "many words",
        many_told(alloc),
        "23 Some(\"word\") true None",
    )?;
    let words = [
        b"sdfw".as_slice(),
        b"a\xFF".as_slice(),
        b"\xFE".as_slice(),
        b"--json".as_slice(),
    ];
    row_says(
        "no text",
        told(alloc, &words),
        "2 Some(\"sdfw\") false Some(1)",
    )
}
