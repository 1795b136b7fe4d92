//! The files of a design.

use anyhow::Result;
use sdf_file::{CoefficientFile, Design, design_files, read_design};
use std::fs;
use std::rt::Files;

/// A graph file and the coefficient files that it names.
#[derive(Drop)]
pub(crate) struct DesignFiles {
    pub(crate) graph: Vec<u8>,
    pub(crate) files: Vec<CoefficientFile>,
}

/// Reads the graph file `graph`, and from the current directory the coefficient files that it names.
pub(crate) fn load<R: AllocGlobal + Files>(rt: &R, graph: &str) -> Result<DesignFiles> {
    let graph = fs::read(rt, graph)?;
    let mut files = Vec::new(rt.alloc());
    for name in design_files(rt.alloc(), &graph)? {
        let bytes = fs::read(rt, name.as_str())?;
        files.push(CoefficientFile { name, bytes })?;
    }
    Ok(DesignFiles { graph, files })
}

/// Reads the design of the graph file `graph`.
pub(crate) fn design_at<R: AllocGlobal + Files>(rt: &R, graph: &str) -> Result<Design> {
    let sources = load(rt, graph)?;
    Ok(read_design(rt.alloc(), &sources.graph, &sources.files)?)
}
