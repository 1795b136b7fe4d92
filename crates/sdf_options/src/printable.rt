//! Texts that are safe to print, on one line or on several.

ghost use Rattle.std.specs.Prelude.{◌≡◌, ◌++◌, IfOk, OnOk, string_bytes};
ghost use Rattle.sdf_options.specs.Printable.{line_char, printable_char, printable_lines, printable_text};

use std::alloc::{AllocError, Global};

/// Adds `character` to `shown` as it is printed.
fn push_printable(shown: &mut String, character: char) -> Result<(), AllocError>
    ensures { OnOk result (string_bytes shown.new ≡ string_bytes shown.old ++ printable_char character) }
{
    if character.is_control() {
        let number = character as u32;
        write!(shown, "\\u{{{number:x}}}")
    } else {
        shown.push(character)
    }
}

/// Returns `text` with each control character written as `\u{a}`: its number in lower-case hexadecimal, without
/// leading zeros. Control characters are those below U+0020 and from U+007F to U+009F.
pub fn printable(alloc: Global, text: &str) -> Result<String, AllocError>
    ensures { IfOk result (λ shown. string_bytes shown ≡ printable_text text.now) }
{
    let mut shown = String::new(alloc);
    for character in text.chars() {
        push_printable(&mut shown, character)?;
    }
    Ok(shown)
}

/// Adds `character` to `shown` as it is printed in a text of several lines.
fn push_in_lines(shown: &mut String, character: char) -> Result<(), AllocError>
    ensures { OnOk result (string_bytes shown.new ≡ string_bytes shown.old ++ line_char character) }
{
    if character == '\n' {
        shown.push('\n')
    } else {
        push_printable(shown, character)
    }
}

/// Returns `text` with each control character except line ends written as `printable` does.
pub fn printable_lines(alloc: Global, text: &str) -> Result<String, AllocError>
    ensures { IfOk result (λ shown. string_bytes shown ≡ printable_lines text.now) }
{
    let mut shown = String::new(alloc);
    for character in text.chars() {
        push_in_lines(&mut shown, character)?;
    }
    Ok(shown)
}
