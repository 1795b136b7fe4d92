//! Names of actors and of coefficient files.
ghost use Rattle.std.specs.Prelude.{◌≡◌, OnOk, bytes_eq};
ghost use Rattle.std.specs.List.{list_all, list_any};
ghost use Rattle.sdf_document.specs.Names.{is_letter, is_name_byte, is_name, is_file_byte, is_file_name};
ghost use Rattle.sdf_document.specs.Names.{names_of, with_name};

use indexmap::IndexSet;
use std::alloc::{AllocError, Global};

fn is_letter(b: u8) -> bool
    ensures { result ≡ is_letter b }
{
    matches!(b, b'A'..=b'Z' | b'a'..=b'z')
}

fn is_name_byte(b: u8) -> bool
    ensures { result ≡ is_name_byte b }
{
    is_letter(b) || matches!(b, b'0'..=b'9' | b'_' | b'-')
}

fn are_name_bytes(bytes: &[u8]) -> bool
    ensures { result ≡ list_all is_name_byte bytes.now }
{
    bytes.iter().all(|b| is_name_byte(*b))
}

/// Returns whether `text` can be an actor's name.
#[tactic(auto, unfolding(crate::specs::Names::is_name))]
pub(crate) fn is_name(text: &str) -> bool
    ensures { result ≡ is_name text.now }
{
    let bytes = text.as_bytes();
    let Some(first) = bytes.first() else {
        return false;
    };
    bytes.len() <= 32 && is_letter(*first) && are_name_bytes(bytes)
}

fn are_file_bytes(bytes: &[u8]) -> bool
    ensures { result ≡ list_all is_file_byte bytes.now }
{
    bytes.iter().all(|b| is_name_byte(*b) || *b == b'.')
}

/// Returns whether `text` can be a coefficient file's name.
#[tactic(auto, unfolding(crate::specs::Names::is_file_name))]
pub(crate) fn is_file_name(text: &str) -> bool
    ensures { result ≡ is_file_name text.now }
{
    let bytes = text.as_bytes();
    let Some(first) = bytes.first() else {
        return false;
    };
    bytes.len() <= 64 && *first != b'.' && are_file_bytes(bytes)
}

/// Puts `name` last into `names`, unless it is there.
#[tactic(auto, using(crate::proofs::Names::names_inserted))]
pub(crate) fn put_name(
    alloc: Global,
    names: &mut IndexSet<String>,
    name: &str,
) -> Result<(), AllocError>
    ensures { OnOk result (names_of names.new.keys ≡ with_name (names_of names.old.keys) name.now) }
{
    names.insert(String::from_str(alloc, name)?)?;
    Ok(())
}

/// Returns whether `name` is among `names`.
#[tactic(auto, using(crate::proofs::Names::list_any_names))]
pub(crate) fn is_taken(names: &IndexSet<String>, name: &str) -> bool
    ensures { result ≡ list_any (bytes_eq name.now) (names_of names.now.keys) }
{
    names.contains(name)
}
