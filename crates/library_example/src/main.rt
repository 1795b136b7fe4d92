//! Runs the design `graph.toml` on the WAV file at standard input, and prints the WAV file that the design makes.
//!
//! It depends on `sdf_file`, which reads the design, on `sdf_plan` and `sdf_options` for its plan, on `sdf_process` for
//! its run from bytes to bytes, and on `sdf_wav` for the reader and the writer. Begin at `main`.
#![tactic(auto)]

use anyhow::Result;
use sdf_file::{CoefficientFile, Design, design_files, read_design};
use sdf_options::Options;
use sdf_plan::planning::plan;
use sdf_process::process::process;
use sdf_wav::{FromRead, ToWrite};
use std::fs;
use std::io::{Read, Write};
use std::rt::Files;
use std::thread::Threads;

/// Reads the graph file at `path`, and from the current directory the coefficient files that it names.
fn load<R: AllocGlobal + Files>(rt: &R, path: &str) -> Result<Design> {
    let graph = fs::read(rt, path)?;
    let mut files = Vec::new(rt.alloc());
    for name in design_files(rt.alloc(), &graph)? {
        let bytes = fs::read(rt, name.as_str())?;
        files.push(CoefficientFile { name, bytes })?;
    }
    Ok(read_design(rt.alloc(), &graph, &files)?)
}

/// Plans `design` for one thread, and runs it on `sound`, the bytes of a WAV file. Returns the bytes that it makes.
fn processed<R: AllocGlobal + Sync + Threads>(
    rt: &R,
    design: &Design,
    sound: &[u8],
) -> Result<Vec<u8>> {
    let plan = plan(rt.alloc(), design, &Options::DEFAULT)?;
    let mut reader = FromRead::new(sound);
    let mut writer = ToWrite::new(Vec::new(rt.alloc()));
    process(rt, &mut reader, &mut writer, design, &plan)?;
    Ok(writer.into_inner())
}

fn main(rt: HostRuntime) -> Result<()> {
    let design = load(&rt, "graph.toml")?;
    let mut sound = Vec::new(rt.alloc());
    rt.stdin().read_to_end(&mut sound)?;
    let made = processed(&rt, &design, &sound)?;
    Ok(rt.stdout().write_all(&made)?)
}
