//! Tests of runs of several files into a folder.

use crate::commands;
use crate::commands::{MUTE, Row, TERMINAL, expect_rows_around};
use crate::files::{
    HALVES, PLAIN, expect_rows, folder, has_bytes, is_gone, path_in, put, served, told, with_files,
};
use crate::parallel::processors;
use crate::shelf::{HEADER, SOUND};
use sdf_io::storage::Disk;
use std::alloc::{AllocError, Global};
use std::fs;
use std::test::Fail;
use std::thread::Threads;
use std::time::Clock;
use test_devices::{CountedThreads, ThreadCount};
use test_texts::says;

/// Batches over files in memory. Refuses a program that stops at a file that fails, or keeps what it has written for
/// that file. Refuses also the least or the last exit status, and two files that are written in one place.
const BATCHES: &[Row] = &[
    (
        "a file",
        "run plain.toml --into made in.wav",
        "0\nin.wav: done\n--\n--\n<5 -5>",
    ),
    (
        "a file that ends too early, and another",
        "run plain.toml --into made cut.wav in.wav",
        "4\ncut.wav: 43 Truncated\nin.wav: done\n--\n--\n<5 -5>",
    ),
    (
        "the same, read to their ends",
        "run plain.toml --into made cut.wav in.wav --open-ended",
        "0\ncut.wav: done\nin.wav: done\n--\n--\n<another sound>",
    ),
    (
        "the greatest status between others",
        "run plain.toml --into made in.wav none.wav one.toml",
        "5\nin.wav: done\nnone.wav: 47 Read\none.toml: 34 NotRiff\n--\n--\n<5 -5>",
    ),
    (
        "the words in another order, with options",
        "run --into=made --parallel=2 plain.toml in.wav",
        "0\nin.wav: done\n--\n--\n<5 -5>",
    ),
    (
        "workers past their limits",
        "run plain.toml --into made --workers 17 in.wav",
        "2\n--\nerror: …",
    ),
    (
        "a design that is refused, once",
        "run stuck.toml --into made in.wav one.toml",
        "3\n--\nsdfw: 10 Deadlock\nin 1 of 1\nadd 0 of 1 short link 3\n…",
    ),
    (
        "a design that is not there",
        "run none.toml --into made in.wav",
        "5\n--\nsdfw: 47 Read\n--\n",
    ),
    (
        "a folder that can't be made",
        "run plain.toml --into else in.wav",
        "5\n--\nsdfw: 48 Write\n--\n",
    ),
    (
        "two files of one name",
        "run plain.toml --into made in.wav other/in.wav",
        "2\n--\nerror: two IN files have the name in.wav\n--\n",
    ),
    (
        "a file of the name of a part",
        "run plain.toml --into made in.wav in.wav.part",
        "2\n--\nerror: IN in.wav.part and another IN differ only by .part\n--\n",
    ),
    (
        "the part behind it",
        "run plain.toml --into made in.wav.part other/in.wav",
        "2\n--\nerror: IN in.wav and another IN differ only by .part\n--\n",
    ),
    (
        "a numbered part",
        "run plain.toml --into made in.wav other/in.wav.part2",
        "2\n--\nerror: IN in.wav.part2 and another IN differ only by .part\n--\n",
    ),
    (
        "standard input",
        "run plain.toml --into made -",
        "2\n--\nerror: IN - has no name for a file in FOLDER\n--\n",
    ),
    (
        "no file",
        "run plain.toml --into made",
        "2\n--\nerror: …<IN>…",
    ),
    (
        "a file named as the option",
        "run -- plain.toml in.wav --into",
        "5\n--\nsdfw: 48 Write\n--\n",
    ),
];

/// Batches at a terminal, where more is printed. Refuses levels without the name of their file, and a program that
/// ignores `--no-why`. Refuses also one that counts files only once several are done, or leaves this line there, and
/// levels of a file that fails.
const SAID: &[Row] = &[
    (
        "a file that ends well, and one that does not",
        "run plain.toml --into made in.wav one.toml",
        "4\nin.wav: done\none.toml: 34 NotRiff\n--\n\r0 of 2 files done\x1b[K…\r\x1b[Kin.wav: output 0: 2 frames, peak \
         -76.3 dB, 0 samples at full scale\n…  \"one.toml\": has \"form\" at byte 0, needs \"RIFF\"\n  convert it: \
         ffmpeg -i one.toml -c:a pcm_s16le one.wav\n--\n<5 -5>",
    ),
    (
        "the levels of two files, each by its name",
        "run plain.toml --into made in.wav silence.wav",
        "0\nin.wav: done\nsilence.wav: done\n--\n\r0 of 2 files done\x1b[K…\r\x1b[Kin.wav: output 0: 2 frames, peak \
         -76.3 dB, 0 samples at full scale\n…silence.wav: output 0: 16 frames, no peak, 0 samples at full scale\n--\n…",
    ),
    (
        "how many files are done, each time one is",
        "run plain.toml --into made in.wav silence.wav",
        "0\nin.wav: done\nsilence.wav: done\n--\n\r0 of 2 files done\x1b[K\r\x1b[K…\r1 of 2 files done\x1b[K\r\x1b[K…\
         silence.wav: output 0: 16 frames, no peak, 0 samples at full scale\n--\n…",
    ),
    (
        "no levels of a file that can't be moved to its place",
        "run plain.toml --into made locked.wav",
        "5\nlocked.wav: 48 Write\n--\n\r0 of 1 file done\x1b[K\r\x1b[K  \"made/locked.wav\": permission denied\n  sdfw \
         explain 48 says what to do\n--\n",
    ),
    (
        "files that are not there, each by itself",
        "run plain.toml --into made none.wav less.wav",
        "5\nnone.wav: 47 Read\nless.wav: 47 Read\n--\n\r0 of 2 files done\x1b[K…  \"none.wav\": entity not \
         found\n…  \"less.wav\": entity not found\n  sdfw explain 47 says what to \
         do\n--\n",
    ),
    (
        "a channel that is not read, once by the name of its file",
        "run plain.toml --into made loud.wav",
        "0\nloud.wav: done\n--\n\r0 of 1 file done\x1b[K\r\x1b[Kloud.wav: output 0: 2 frames, peak 0.0 dB, 1 sample at \
         full scale\nloud.wav: the sound has 2 channels, but the design reads only channel 0: channel 1 needs an \
         input (resample: --channels 2)\n--\n…",
    ),
    (
        "how a parallel run goes, once",
        "run plain.toml --into made in.wav --parallel 1",
        "0\nin.wav: done\n--\none thread: there is one worker\n\r0 of 1 file done\x1b[K\r\x1b[Kin.wav: output 0: \
         2 frames, peak -76.3 dB, 0 samples at full scale\n--\n<5 -5>",
    ),
    (
        "how each parallel run went",
        "run plain.toml --into made in.wav --parallel 2",
        "0\nin.wav: done\n--\n\r0 of 1 file done\x1b[K\r\x1b[Kin.wav: 2 workers, each on its own part of the sound \
         after 0 periods (0 samples) of warm-up\nin.wav: output 0: 2 frames, peak -76.3 dB, 0 samples at full \
         scale\n--\n<5 -5>",
    ),
    (
        "how many files are done, one after the other",
        "run plain.toml --into made in.wav silence.wav --parallel 1",
        "0\nin.wav: done\nsilence.wav: done\n--\none thread: there is one worker\n\r0 of 2 files done\x1b[K\r\x1b[K\
         in.wav: output 0: …\n\r1 of 2 files done\x1b[K\r\x1b[Ksilence.wav: output 0: …",
    ),
    (
        "the same without more",
        "run plain.toml --into made in.wav one.toml --no-why",
        "4\nin.wav: done\none.toml: 34 NotRiff\n--\n--\n<5 -5>",
    ),
];

/// Batches whose lines are not printed. Refuses a program that goes on after the first.
const UNPRINTED: &[Row] = &[
    (
        "run plain.toml --into made in.wav",
        "run plain.toml --into made in.wav",
        "5\n--\nsdfw: 48 Write\n--\n<5 -5>",
    ),
    (
        "run plain.toml --into made in.wav silence.wav --parallel 1",
        "run plain.toml --into made in.wav silence.wav --parallel 1",
        "5\n--\nsdfw: 48 Write\n--\n<5 -5>",
    ),
];

#[test]
fn what_batches_tell(rt: HostRuntime) -> Result<(), Fail> {
    commands::expect_rows(&rt, BATCHES)?;
    expect_rows_around(&rt, TERMINAL, SAID)?;
    expect_rows_around(&rt, MUTE, UNPRINTED)
}

/// Lines that would write over a file if they took any name, and their reports.
const ITSELF: &[Row] = &[
    (
        "a file that would be written over",
        "run @/graph.toml --into @ @/in.wav",
        "2 error: …/in.wav is the same file as IN\n",
    ),
    (
        "a coefficient file in the place of an output",
        "run @/graph.toml --into @ @/out/one.toml",
        "2 error: …/one.toml is the same file as the coefficient file one.toml\n",
    ),
    (
        "a graph file by the name of a part, which is kept",
        "run @/out/in.wav.part --into @/out @/in.wav",
        "0 ",
    ),
];

/// Makes the folder `into` anew, with an output of an earlier run.
fn put_old(rt: &HostRuntime, into: &str) -> Result<(), Fail> {
    let _ = fs::remove_dir_all(rt, into);
    fs::create_dir(rt, into)?;
    put(rt, into, "cut.wav", b"old")
}

/// Fails if the part of `cut.wav` is left in the folder `into`.
fn has_no_part(rt: &HostRuntime, into: &str) -> Result<(), Fail> {
    let part = path_in(rt.alloc(), into, "cut.wav.part")?;
    is_gone(rt, &part)
}

/// Runs a batch in the folder `above`, and compares the files that it leaves there and in the folder `into`.
fn leaves<T: Threads + AllocGlobal + Clock + Clone + Drop + Sync>(
    rt: &HostRuntime,
    threads: &T,
    above: &str,
    into: &str,
) -> Result<(), Fail> {
    let line = "run @/graph.toml --into @/out @/in.wav @/cut.wav";
    says(told(&Disk { rt }, threads, above, line), "4 ")?;
    has_bytes(rt, into, "in.wav", HALVES, line)?;
    has_bytes(rt, into, "cut.wav", b"old", line)?;
    has_no_part(rt, into)?;
    put(rt, into, "in.wav.part", PLAIN.as_bytes())?;
    expect_rows(&Disk { rt }, threads, above, ITSELF)?;
    has_bytes(rt, into, "in.wav.part", PLAIN.as_bytes(), line)?;
    has_bytes(rt, above, "in.wav", SOUND, line)
}

/// Tests the files that a batch leaves. Refuses a half-written file, an old one that is gone, and a part that stays.
#[test]
fn files_in_a_folder(rt: HostRuntime) -> Result<(), Fail> {
    let above = with_files(&rt, "batch")?;
    put(&rt, &above, "cut.wav", HEADER)?;
    let into = path_in(rt.alloc(), &above, "out")?;
    put_old(&rt, &into)?;
    leaves(&rt, &rt, &above, &into)
}

/// Returns a sound of `frames` frames of `sample`.
fn sound_of(alloc: Global, sample: u8, frames: u32) -> Result<Vec<u8>, AllocError> {
    let size = frames.saturating_mul(2);
    let mut sound = Vec::new(alloc);
    sound.extend_from_slice(&HEADER[..4])?;
    sound.extend_from_slice(&size.saturating_add(36).to_le_bytes())?;
    sound.extend_from_slice(&HEADER[8..40])?;
    sound.extend_from_slice(&size.to_le_bytes())?;
    for _ in 0..frames {
        sound.extend_from_slice(&[sample, 0])?;
    }
    Ok(sound)
}

/// Returns the sound of file `number` of `count`. Each has its own sample, and is shorter than those before it.
fn sound_at(alloc: Global, number: u8, count: u8) -> Result<Vec<u8>, AllocError> {
    let behind = u32::from(count.saturating_sub(number));
    sound_of(alloc, number, behind.saturating_mul(3_000))
}

/// The numbered files of a batch in the folder `above`. File `cut` is only a header.
#[derive(Clone, Copy)]
struct Takes<'a> {
    above: &'a str,
    count: u8,
    cut: Option<u8>,
}

/// Returns the bytes of file `number`.
fn take_of(alloc: Global, takes: Takes<'_>, number: u8) -> Result<Vec<u8>, AllocError> {
    if takes.cut == Some(number) {
        return Vec::from_slice(alloc, HEADER);
    }
    sound_at(alloc, number, takes.count)
}

/// Puts file `number` of a batch into its folder.
fn put_take(rt: &HostRuntime, takes: Takes<'_>, number: u8) -> Result<(), Fail> {
    let name = format!(in rt.alloc(); "{number}.wav")?;
    let bytes = take_of(rt.alloc(), takes, number)?;
    put(rt, takes.above, name.as_str(), &bytes)
}

/// Puts the design and the files of a batch into their folder, without the outputs of earlier runs.
fn put_takes(rt: &HostRuntime, takes: Takes<'_>, into: &str) -> Result<(), Fail> {
    let _ = fs::remove_dir_all(rt, into);
    put(rt, takes.above, "plain.toml", PLAIN.as_bytes())?;
    for number in 0..takes.count {
        put_take(rt, takes, number)?;
    }
    Ok(())
}

/// Returns the words that run a batch, with the option `option`.
fn words_for(alloc: Global, takes: Takes<'_>, option: &str) -> Result<String, AllocError> {
    let mut words = String::from_str(alloc, "run @/plain.toml --into @/out")?;
    for number in 0..takes.count {
        write!(words, " @/{number}.wav")?;
    }
    words.push_str(option)?;
    Ok(words)
}

/// Returns the wanted status and lines of a batch.
fn lines_of(alloc: Global, takes: Takes<'_>) -> Result<String, AllocError> {
    let mut lines = String::from_str(alloc, if takes.cut.is_some() { "4\n" } else { "0\n" })?;
    for number in 0..takes.count {
        let ended = if takes.cut == Some(number) {
            "43 Truncated"
        } else {
            "done"
        };
        writeln!(lines, "{}/{number}.wav: {ended}", takes.above)?;
    }
    Ok(lines)
}

/// Returns the status and the lines of a batch.
fn lines_told<T: Threads + AllocGlobal + Clock + Clone + Drop + Sync>(
    rt: &HostRuntime,
    threads: &T,
    takes: Takes<'_>,
    words: &str,
) -> Result<String, Fail> {
    let served = served(&Disk { rt }, threads, takes.above, words)?;
    served.lines(rt.alloc())
}

/// Compares the status and the lines of a batch with the wanted ones.
fn are_lines<T: Threads + AllocGlobal + Clock + Clone + Drop + Sync>(
    rt: &HostRuntime,
    threads: &T,
    takes: Takes<'_>,
    words: &str,
) -> Result<(), Fail> {
    let wanted = lines_of(rt.alloc(), takes)?;
    says(lines_told(rt, threads, takes, words), wanted.as_str())
}

/// Fails if file `number` of a batch is not written as it was read.
fn is_written(
    rt: &HostRuntime,
    takes: Takes<'_>,
    into: &str,
    number: u8,
    words: &str,
) -> Result<(), Fail> {
    let name = format!(in rt.alloc(); "{number}.wav")?;
    let bytes = take_of(rt.alloc(), takes, number)?;
    has_bytes(rt, into, name.as_str(), &bytes, words)
}

/// Returns the number of files in a folder.
fn files_in(rt: &HostRuntime, folder: &str) -> Result<u8, Fail> {
    let mut names: u8 = 0;
    for _ in fs::read_dir(rt, folder)? {
        names = names.saturating_add(1);
    }
    Ok(names)
}

/// Fails if a file of a batch is not written as it was read, or if a cut file or a part is there.
fn are_written(rt: &HostRuntime, takes: Takes<'_>, into: &str, words: &str) -> Result<(), Fail> {
    for number in 0..takes.count {
        if takes.cut != Some(number) {
            is_written(rt, takes, into, number, words)?;
        }
    }
    let failed = if takes.cut.is_some() { 1 } else { 0 };
    let there = takes.count.saturating_sub(failed);
    let names = files_in(rt, into)?;
    if names == there {
        return Ok(());
    }
    Err(Fail::new(format_args!("{words}: {names} files in place of {there}")))
}

/// Runs a batch into the folder `into`, and compares its status, its lines and the files that it leaves.
fn is_done<T: Threads + AllocGlobal + Clock + Clone + Drop + Sync>(
    rt: &HostRuntime,
    threads: &T,
    takes: Takes<'_>,
    into: &str,
    option: &str,
) -> Result<(), Fail> {
    put_takes(rt, takes, into)?;
    let words = words_for(rt.alloc(), takes, option)?;
    are_lines(rt, threads, takes, &words)?;
    are_written(rt, takes, into, &words)
}

/// Runs a batch in a folder of its own, and compares what it does with what is wanted.
fn is_run<T: Threads + AllocGlobal + Clock + Clone + Drop + Sync>(
    rt: &HostRuntime,
    threads: &T,
    name: &str,
    count: u8,
    cut: Option<u8>,
    option: &str,
) -> Result<(), Fail> {
    let above = folder(rt, name)?;
    let takes = Takes {
        above: above.as_str(),
        count,
        cut,
    };
    let into = path_in(rt.alloc(), takes.above, "out")?;
    is_done(rt, threads, takes, &into, option)
}

/// Tests files that are run at once. Refuses mixed-up outputs of two files, and lines in the order in which files are
/// done. Refuses also files that are never run, past those that are run at once, and a file whose fault stops another.
#[test]
fn files_at_once(rt: HostRuntime) -> Result<(), Fail> {
    is_run(&rt, &rt, "many", 20, None, "")?;
    is_run(&rt, &rt, "few", 5, Some(1), "")?;
    is_run(&rt, &rt, "in-turn", 3, Some(0), " --parallel 2")
}

/// Tests how many files run at the same time. Refuses a program that runs one file after the other on one thread, and
/// one that starts more threads than there are processors.
#[test]
fn threads_of_a_batch(rt: HostRuntime) -> Result<(), Fail> {
    let wanted = processors(&rt) as u64;
    let count = ThreadCount::of(wanted);
    let counted = CountedThreads {
        rt: &rt,
        count: &count,
    };
    is_run(&rt, &counted, "at-once", 20, None, "")?;
    let seen = format!(in rt.alloc(); "{}", count.greatest())?;
    let wanted = format!(in rt.alloc(); "{wanted}")?;
    says(Ok(seen), wanted.as_str())
}
