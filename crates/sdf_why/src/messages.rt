//! Diagnostics with the message of the system or of the TOML parser.

ghost use Rattle.std.specs.Prelude.{◌≡◌, IfOk, string_bytes};
ghost use Rattle.sdf_why.specs.Words.{message_line};
ghost use Rattle.sdf_why.specs.Messages.{IsSaid, IsTomlText};

use crate::marks::before;
use crate::words::push_message;
use std::alloc::{AllocError, Global};
use toml::de::Error;

/// Returns the diagnostic for the file `name` with the message `said`, for example that it is a folder.
pub fn device_text(alloc: Global, name: &str, said: &str) -> Result<String, AllocError>
    ensures { IfOk result (λ text. string_bytes text ≡ message_line name.now said.now) }
{
    let mut text = String::new(alloc);
    push_message(alloc, &mut text, name, said)?;
    Ok(text)
}

/// Returns the end of the message about `error` in `bytes`. At a header with single brackets it asks for double ones.
fn bracket_hint(bytes: &[u8], error: &Error) -> &'static str {
    match error.span().and_then(|span| bytes.get(span)) {
        Some(b"[actor]") => ", each actor has double brackets: [[actor]]",
        Some(b"[link]") => ", each link has double brackets: [[link]]",
        _ => "",
    }
}

/// Returns the end of the message about `bytes` that begin as a text in UTF-16 does.
fn encoding_hint(bytes: &[u8]) -> &'static str {
    match bytes {
        [0xFF, 0xFE, ..] | [0xFE, 0xFF, ..] => ", the file is in UTF-16: save it as UTF-8",
        _ => "",
    }
}

/// Returns the line and the column of `error` in `bytes`, and its message.
fn message_of(alloc: Global, bytes: &[u8], error: &Error) -> Result<String, AllocError> {
    let whole = format!(in alloc; "{error}")?;
    let place = before(whole.as_str(), '\n');
    let message = error.message();
    format!(in alloc;
        "{place}: {message}{}{}",
        bracket_hint(bytes, error),
        encoding_hint(bytes)
    )
}

/// Returns the diagnostic for the file `name` of these `bytes`, with the `error` of the TOML parser.
fn error_text(alloc: Global, name: &str, bytes: &[u8], error: &Error) -> Result<String, AllocError>
    ensures { IfOk result (λ text. IsSaid name.now (string_bytes text)) }
{
    let said = message_of(alloc, bytes, error)?;
    let text = device_text(alloc, name, said.as_str())?;
    Ok(text)
}

/// Returns the diagnostic for `bytes` that are not TOML, with the line and the column; empty if they are.
pub fn toml_text(alloc: Global, name: &str, bytes: &[u8]) -> Result<String, AllocError>
    ensures { IfOk result (λ text. IsTomlText name.now bytes.now (string_bytes text)) }
{
    match toml::table_from_slice(alloc, bytes) {
        Ok(_) => Ok(String::new(alloc)),
        Err(error) if error.is_memory() => Err(AllocError),
        Err(error) => error_text(alloc, name, bytes, &error),
    }
}
