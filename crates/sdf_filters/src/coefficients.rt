//! The text of a coefficient file.

ghost use Rattle.std.specs.Prelude.{◌≡◌, ◌++◌, IfOk, OnOk, length, string_bytes};
ghost use Rattle.sdf_filters.specs.Coefficients.{separator, value_text, values_text, coefficient_text};

use std::alloc::{AllocError, Global};

/// Returns the separator before the value at `place`. Each row has twelve values.
fn separator(place: usize) -> &'static str
    ensures { result.now ≡ separator place }
{
    if place == 0 {
        "\n  "
    } else if place % 12 == 0 {
        ",\n  "
    } else {
        ", "
    }
}

/// Adds a value, after its separator.
fn push_value(text: &mut String, place: usize, value: i32) -> Result<(), AllocError>
    ensures { OnOk result (string_bytes text.new ≡ string_bytes text.old ++ value_text place value) }
{
    let before = separator(place);
    write!(text, "{before}{value}")?;
    Ok(())
}

/// Adds values.
fn push_values(text: &mut String, taps: &[i32]) -> Result<(), AllocError>
    ensures { OnOk result (string_bytes text.new ≡ string_bytes text.old ++ values_text taps.now (length taps.now)) }
{
    for (place, value) in taps.iter().enumerate() {
        push_value(text, place, *value)?;
    }
    Ok(())
}

/// Adds the coefficient file of `taps`.
pub(crate) fn push_coefficients(text: &mut String, taps: &[i32]) -> Result<(), AllocError>
    ensures { OnOk result (string_bytes text.new ≡ string_bytes text.old ++ coefficient_text taps.now) }
{
    text.push_str("format = 1\nvalues = [")?;
    push_values(text, taps)?;
    text.push_str("\n]\n")
}

/// Returns the coefficient file of `taps`, as an actor of kind `fir` reads it by its key `file`.
pub fn coefficient_text(alloc: Global, taps: &[i32]) -> Result<String, AllocError>
    ensures { IfOk result (λ text. string_bytes text ≡ coefficient_text taps.now) }
{
    let mut text = String::new(alloc);
    push_coefficients(&mut text, taps)?;
    Ok(text)
}
