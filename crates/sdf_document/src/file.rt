//! Coefficient files.
ghost use Rattle.std.specs.Prelude.{◌≡◌, map, find, option_map, string_bytes, bytes_eq};
ghost use Rattle.toml.specs.View.{table_view};
ghost use Rattle.sdf_document.specs.Fault.{Gives};
ghost use Rattle.sdf_document.specs.Tables.{texts_of};
ghost use Rattle.sdf_document.specs.Lists.{file_named, files_view, file_keys, coefficients};

use crate::fault::{BorrowedPlace, DocumentFault, ReadFault};
use crate::table::{format_at, table_in, test_keys};
use crate::value::{at, integers_at};
use std::alloc::Global;

/// A coefficient file: its name and its bytes.
#[derive(Drop)]
pub struct CoefficientFile {
    pub name: String,
    pub bytes: Vec<u8>,
}

/// Coefficient files, or `Unread` if no file is looked into.
#[derive(Clone, Copy)]
pub(crate) enum Files<'a> {
    Unread,
    Given(&'a [CoefficientFile]),
}

/// Returns the bytes of the first of `files` that is called `name`.
pub fn file_named<'a>(name: &str, files: &'a [CoefficientFile]) -> Option<&'a [u8]>
    ensures { option_map (λ s. s.now) result ≡ file_named name.now (files_view files.now) }
{
    for file in files {
        if name == file.name.as_str() {
            return Some(file.bytes.as_slice());
        }
    }
    None
}

static FILE_KEYS: [&str; 2] = ["format", "values"];

/// Returns the keys of a coefficient file.
pub fn file_keys() -> &'static [&'static str]
    ensures { texts_of result.now ≡ file_keys }
{
    FILE_KEYS.as_slice()
}

/// Returns the values that the coefficient file `name` lists in its `bytes`.
#[tactic(auto, unfolding(crate::specs::Lists::coefficients))]
pub(crate) fn coefficients(alloc: Global, name: &str, bytes: &[u8]) -> Result<Vec<i64>, ReadFault>
    ensures { Gives (λ v. v.items) result (coefficients name.now bytes.now) }
{
    let borrowed = BorrowedPlace::File(name);
    let table = table_in(alloc, borrowed, bytes)?;
    format_at(alloc, borrowed, 1, &table)?;
    test_keys(alloc, borrowed, file_keys(), &table)?;
    let Some(values) = at(&table, "values") else {
        let place = borrowed.place(alloc)?;
        return Err(DocumentFault::MissingKey(place, "values").into());
    };
    integers_at(alloc, borrowed, "values", values)
}
