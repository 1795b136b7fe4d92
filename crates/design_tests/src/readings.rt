//! Files for the tests, and the texts of what readings return.

use sdf_file::CoefficientFile;
use std::alloc::Global;
use std::fmt;
use std::test::Fail;

/// Returns files of the names and texts in `rows`.
pub(crate) fn files(alloc: Global, rows: &[(&str, &str)]) -> Result<Vec<CoefficientFile>, Fail> {
    let mut files = Vec::new(alloc);
    for (name, text) in rows {
        files.push(CoefficientFile {
            name: String::from_str(alloc, name)?,
            bytes: Vec::from_slice(alloc, text.as_bytes())?,
        })?;
    }
    Ok(files)
}

/// Returns the text of what a reading gives, or of its fault.
pub(crate) fn told<T: fmt::Debug + Drop, F: fmt::Display + Drop>(
    alloc: Global,
    answer: Result<T, F>,
) -> Result<String, Fail> {
    match answer {
        Ok(value) => Ok(format!(in alloc; "{value:?}")?),
        Err(fault) => Ok(fault.to_string(alloc)?),
    }
}
