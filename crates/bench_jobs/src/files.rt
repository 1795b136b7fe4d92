//! Designs that are made or read from files.

use anyhow::Result;
use bench_inputs::graphs::Graph;
use bench_inputs::numbers::Numbers;
use sdf_file::{CoefficientFile, Design, design_files, read_design};
use std::alloc::Global;
use std::fs;
use std::rt::Files;

/// Reads a file in a folder of `designs`.
fn bytes_at<R: AllocGlobal + Files>(rt: &R, folder: &str, name: &str) -> Result<Vec<u8>> {
    let path = format!(in rt.alloc(); "designs/{folder}/{name}")?;
    Ok(fs::read(rt, path.as_str())?)
}

/// Adds a coefficient file.
fn push_file<R: AllocGlobal + Files>(
    rt: &R,
    folder: &str,
    name: String,
    files: &mut Vec<CoefficientFile>,
) -> Result<()> {
    let bytes = bytes_at(rt, folder, &name)?;
    Ok(files.push(CoefficientFile { name, bytes })?)
}

/// Reads the coefficient files that a graph file names.
fn files_beside<R: AllocGlobal + Files>(
    rt: &R,
    folder: &str,
    graph: &[u8],
) -> Result<Vec<CoefficientFile>> {
    let mut files = Vec::new(rt.alloc());
    for name in design_files(rt.alloc(), graph)? {
        push_file(rt, folder, name, &mut files)?;
    }
    Ok(files)
}

/// Reads the design of a graph file and the coefficient files that it names.
pub(crate) fn design_in(alloc: Global, graph: &[u8], files: &[CoefficientFile]) -> Result<Design> {
    Ok(read_design(alloc, graph, files)?)
}

/// Makes a design, with numbers of a seed.
pub(crate) fn design_of(alloc: Global, graph: Graph, numbers: &mut Numbers) -> Result<Design> {
    let text = graph.text(alloc, numbers)?;
    design_in(alloc, text.as_bytes(), &[])
}

/// Reads the design of a graph file in a folder of `designs`.
pub(crate) fn design_at<R: AllocGlobal + Files>(
    rt: &R,
    folder: &str,
    graph: &str,
) -> Result<Design> {
    let graph = bytes_at(rt, folder, graph)?;
    let files = files_beside(rt, folder, &graph)?;
    design_in(rt.alloc(), &graph, &files)
}
