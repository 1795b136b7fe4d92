//! Tables, and the keys that they may have.
ghost use Rattle.std.specs.Prelude.{◌≡◌, map, bytes_eq};
ghost use Rattle.std.specs.List.{list_any};
ghost use Rattle.toml.specs.View.{table_view};
ghost use Rattle.sdf_document.specs.Fault.{Gives, borrowed_view, or_fault, not_toml};
ghost use Rattle.sdf_document.specs.Tables.{texts_of, table_in, format_at, known_keys};

use crate::fault::{BorrowedPlace, DocumentFault, ReadFault};
use crate::value::at;
use std::alloc::Global;
use toml::Table;

/// Parses `bytes` as a TOML table. The fault `NotToml` is at `borrowed`.
pub(crate) fn table_in(
    alloc: Global,
    borrowed: BorrowedPlace<'_>,
    bytes: &[u8],
) -> Result<Table, ReadFault>
    ensures { Gives table_view result (or_fault (not_toml (borrowed_view borrowed.entry)) (table_in bytes.now)) }
{
    match toml::table_from_slice(alloc, bytes) {
        Ok(table) => Ok(table),
        Err(error) if error.is_memory() => Err(ReadFault::OutOfMemory),
        Err(_) => {
            let place = borrowed.place(alloc)?;
            Err(DocumentFault::NotToml(place).into())
        }
    }
}

/// Returns the format of a file, from 1 to `last`.
#[tactic(auto, unfolding(crate::specs::Tables::format_at))]
pub(crate) fn format_at(
    alloc: Global,
    borrowed: BorrowedPlace<'_>,
    last: u32,
    table: &Table,
) -> Result<u32, ReadFault>
    ensures { Gives (λ n. n) result (format_at (borrowed_view borrowed.entry) last (table_view table.now)) }
{
    let Some(value) = at(table, "format") else {
        let place = borrowed.place(alloc)?;
        return Err(DocumentFault::MissingKey(place, "format").into());
    };
    let Some(format) = value.as_integer() else {
        let place = borrowed.place(alloc)?;
        return Err(DocumentFault::WrongType(place, "format").into());
    };
    if 1 <= format && format <= i64::from(last) {
        Ok(format as u32)
    } else {
        let place = borrowed.place(alloc)?;
        Err(DocumentFault::Format(place).into())
    }
}

fn is_known(known: &[&str], key: &str) -> bool
    ensures { result ≡ list_any (λ t. bytes_eq key.now t.now) known.now }
{
    known.iter().any(|k| key == *k)
}

/// Checks that `table` has only `known` keys. The fault names the first other key in byte order.
#[tactic(auto, using(crate::proofs::Names::list_any_texts), unfolding(crate::specs::Tables::known_keys))]
pub(crate) fn test_keys(
    alloc: Global,
    borrowed: BorrowedPlace<'_>,
    known: &[&str],
    table: &Table,
) -> Result<(), ReadFault>
    ensures { Gives (λ x. x) result (known_keys (borrowed_view borrowed.entry) (texts_of known.now)
        (table_view table.now)) }
{
    for (key, _) in table {
        if !is_known(known, key.as_str()) {
            let place = borrowed.place(alloc)?;
            return Err(DocumentFault::UnknownKey(place, key.clone()?).into());
        }
    }
    Ok(())
}
