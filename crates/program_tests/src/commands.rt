//! Commands over files in memory, and reports on them.

use crate::shelf::{HEADER, NEW_SOUND, SOUND, Shelf, places};
use sdf_cli::arguments::Arguments;
use sdf_io::files::MAX_BYTES;
use sdf_io::storage::Storage;
use sdf_io::world::World;
use sdf_options::WordFault;
use sdf_program::program::serve;
use std::alloc::{AllocError, Global};
use std::io::{self, Error, ErrorKind, Write};
use std::sync::Mutex;
use std::test::Fail;
use std::thread::Threads;
use std::time::Clock;

/// The name of a row, the words after the program's name, and the report, with `…` in place of any text.
pub(crate) type Row = (&'static str, &'static str, &'static str);

/// A stream that keeps what is written, or refuses it with an error of this kind.
#[derive(Drop)]
struct Stream {
    refuses: Option<ErrorKind>,
    written: Vec<u8>,
    /// The number of bytes in the first call that wrote some.
    first: usize,
}

impl Stream {
    /// Returns a stream that refuses each call with this error, if there is one.
    fn new(alloc: Global, refuses: Option<ErrorKind>) -> Stream {
        Stream {
            refuses,
            written: Vec::new(alloc),
            first: 0,
        }
    }
}

impl Write for Stream {
    fn write(&mut self, bytes: &[u8]) -> io::Result<usize> {
        match self.refuses {
            Some(kind) => Err(Error::from(kind)),
            None => {
                if self.written.is_empty() {
                    self.first = bytes.len();
                }
                self.written.write(bytes)
            }
        }
    }

    fn flush(&mut self) -> io::Result<()> {
        match self.refuses {
            Some(kind) => Err(Error::from(kind)),
            None => Ok(()),
        }
    }
}

/// Returns the program's name and the words of `line`, with `folder` in place of `@`.
pub(crate) fn given_of(alloc: Global, line: &str, folder: &str) -> Result<Arguments, AllocError> {
    let mut words = Vec::new(alloc);
    push_word(alloc, &mut words, "sdfw", folder)?;
    for word in line.split(' ') {
        push_word(alloc, &mut words, word, folder)?;
    }
    Ok(Arguments {
        words,
        unread: None,
    })
}

/// Appends `word` to `words`, with `folder` in place of `@`.
fn push_word(
    alloc: Global,
    words: &mut Vec<String>,
    word: &str,
    folder: &str,
) -> Result<(), AllocError> {
    words.push(word.replace(alloc, "@", folder)?)?;
    Ok(())
}

/// The surroundings of a command: standard input, the maximum length of files, the errors of standard output and of
/// standard error, whether standard error is a terminal, and a dumb one, and whether the environment asks for more.
#[derive(Clone, Copy)]
pub(crate) struct Around<'a> {
    pub(crate) stdin: &'a [u8],
    pub(crate) most: u32,
    pub(crate) output: Option<ErrorKind>,
    pub(crate) error: Option<ErrorKind>,
    pub(crate) terminal: bool,
    pub(crate) dumb: bool,
    pub(crate) why: bool,
}

/// Surroundings in which nothing is refused, for constants that differ from them.
pub(crate) const OPEN_AROUND: Around<'static> = Around {
    stdin: b"",
    most: MAX_BYTES,
    output: None,
    error: None,
    terminal: false,
    dumb: false,
    why: false,
};

/// Surroundings in which nothing is refused, as a reference: a function that lends them builds no copy.
pub(crate) const OPEN: &Around<'static> = &OPEN_AROUND;

/// Surroundings in which standard error is a terminal.
pub(crate) const TERMINAL: &Around<'static> = &Around {
    terminal: true,
    ..OPEN_AROUND
};

/// Surroundings in which standard output is closed.
pub(crate) const MUTE: &Around<'static> = &Around {
    output: Some(ErrorKind::BrokenPipe),
    ..OPEN_AROUND
};

/// Returns a text, or the name of a sound of the tests by its samples.
fn text_of(bytes: &[u8]) -> &str {
    if bytes == SOUND {
        return "<5 -5>";
    }
    if bytes == NEW_SOUND {
        return "<7 8>";
    }
    if bytes == HEADER {
        return "<5 -5 to come>";
    }
    match str::from_utf8(bytes) {
        Ok(text) => text,
        Err(_) => "<another sound>",
    }
}

/// Returns an exit status and the text `bytes`, with `between` between them.
fn status_and_text(alloc: Global, status: u8, between: char, bytes: &[u8]) -> Result<String, Fail> {
    let text = str::from_utf8(bytes)?;
    format!(in alloc; "{status}{between}{text}").map_err(Fail::from)
}

/// The result of a command: its exit status, what it prints on standard output and on standard error, and the files
/// that it writes in memory, one after the other. `first` is the number of bytes that it prints first.
#[derive(Drop)]
pub(crate) struct Served {
    pub(crate) status: u8,
    pub(crate) first: usize,
    pub(crate) out: Vec<u8>,
    pub(crate) err: Vec<u8>,
    pub(crate) file: Vec<u8>,
}

impl Served {
    /// Returns the result as text.
    fn text(&self, alloc: Global) -> Result<String, AllocError> {
        let out = text_of(&self.out);
        let err = text_of(&self.err);
        let file = text_of(&self.file);
        format!(in alloc; "{}\n{out}--\n{err}--\n{file}", self.status)
    }

    /// Returns the exit status and what is printed on standard error.
    pub(crate) fn errors(&self, alloc: Global) -> Result<String, Fail> {
        status_and_text(alloc, self.status, ' ', &self.err)
    }

    /// Returns the exit status and the lines on standard output.
    pub(crate) fn lines(&self, alloc: Global) -> Result<String, Fail> {
        status_and_text(alloc, self.status, '\n', &self.out)
    }
}

/// Serves the words `given` over the files of `storage`. The `file` of the result is empty.
pub(crate) fn serve_over<S: Storage, T: Threads + AllocGlobal + Clock + Clone + Drop + Sync>(
    storage: &S,
    threads: &T,
    around: &Around<'_>,
    given: Result<Arguments, WordFault>,
) -> Served {
    let world = World {
        storage,
        threads,
        most: around.most,
        terminal: around.terminal,
        dumb: around.dumb,
        why: around.why,
    };
    let mut stdin = around.stdin;
    let mut out = Stream::new(threads.alloc(), around.output);
    let mut err = Stream::new(threads.alloc(), around.error);
    let status = serve(&world, &mut stdin, &mut out, &mut err, given);
    Served {
        status,
        first: out.first,
        out: out.written,
        err: err.written,
        file: Vec::new(threads.alloc()),
    }
}

/// Returns what is written in `places`, one place after the other.
fn written(alloc: Global, places: Vec<Mutex<Vec<u8>>>) -> Result<Vec<u8>, AllocError> {
    let mut file = Vec::new(alloc);
    for place in places {
        file.append(&mut place.into_inner())?;
    }
    Ok(file)
}

/// Serves the words `given` over the files of the tests.
pub(crate) fn serve_given<T: Threads + AllocGlobal + Clock + Clone + Drop + Sync>(
    rt: &T,
    around: &Around<'_>,
    given: Result<Arguments, WordFault>,
) -> Result<Served, Fail> {
    let places = places(rt.alloc())?;
    let mut served = serve_over(&Shelf { places: &places }, rt, around, given);
    served.file = written(rt.alloc(), places)?;
    Ok(served)
}

/// Serves a line of words over the files of the tests.
pub(crate) fn serve_line<T: Threads + AllocGlobal + Clock + Clone + Drop + Sync>(
    rt: &T,
    around: &Around<'_>,
    line: &str,
) -> Result<Served, Fail> {
    let given = given_of(rt.alloc(), line, "")?;
    serve_given(rt, around, Ok(given))
}

/// Serves `line` in these surroundings, and returns the result as text.
pub(crate) fn told_around<T: Threads + AllocGlobal + Clock + Clone + Drop + Sync>(
    rt: &T,
    around: &Around<'_>,
    line: &str,
) -> Result<String, Fail> {
    let served = serve_line(rt, around, line)?;
    served.text(rt.alloc()).map_err(Fail::from)
}

/// Serves `line` in surroundings in which nothing is refused, and returns the result as text.
pub(crate) fn told<T: Threads + AllocGlobal + Clock + Clone + Drop + Sync>(
    rt: &T,
    line: &str,
) -> Result<String, Fail> {
    told_around(rt, OPEN, line)
}

/// Checks whether `text` has the parts of `wanted`, which is split at each `…`, one after the other.
fn has(text: &str, wanted: &str) -> bool {
    let mut parts = wanted.split("…");
    let Some(first) = parts.next() else {
        return false;
    };
    let Some(mut rest) = text.strip_prefix(first) else {
        return false;
    };
    for part in parts {
        match rest.split_once(part) {
            Some((_, behind)) => rest = behind,
            None => return false,
        }
    }
    rest.is_empty() || wanted.ends_with("…")
}

/// Fails if the text `told` is not as `wanted`, with `…` in place of any text, or if there is none.
pub(crate) fn expect_text(
    name: &str,
    told: Result<String, Fail>,
    wanted: &str,
) -> Result<(), Fail> {
    let text = told?;
    if has(&text, wanted) {
        return Ok(());
    }
    Err(Fail::new(format_args!("{name}: {text:?} in place of {wanted:?}")))
}

/// Compares what the words of each row print in these surroundings with the wanted text.
pub(crate) fn expect_rows_around<T: Threads + AllocGlobal + Clock + Clone + Drop + Sync>(
    rt: &T,
    around: &Around<'_>,
    rows: &[Row],
) -> Result<(), Fail> {
    for (name, line, wanted) in rows {
        expect_text(name, told_around(rt, around, line), wanted)?;
    }
    Ok(())
}

/// Compares what the words of each row print with the wanted text.
pub(crate) fn expect_rows<T: Threads + AllocGlobal + Clock + Clone + Drop + Sync>(
    rt: &T,
    rows: &[Row],
) -> Result<(), Fail> {
    expect_rows_around(rt, OPEN, rows)
}
