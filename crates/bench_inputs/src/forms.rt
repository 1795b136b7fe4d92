//! Texts with places for numbers.

use crate::numbers::Numbers;
use std::alloc::AllocError;

/// Adds `form`, in which `{0}`, `{1}` and so on stand for `numbers`.
pub(crate) fn push_form(text: &mut String, form: &str, numbers: &[u32]) -> Result<(), AllocError> {
    for part in form.split('{') {
        push_part(text, part, numbers)?;
    }
    Ok(())
}

/// Adds the number whose place stands before `}`, and what stands behind it.
fn push_part(text: &mut String, part: &str, numbers: &[u32]) -> Result<(), AllocError> {
    let Some((place, rest)) = part.split_once('}') else {
        return text.push_str(part);
    };
    let number = place.parse::<usize>().ok().and_then(|it| numbers.get(it));
    match number {
        Some(number) => write!(text, "{number}{rest}"),
        None => text.push_str(rest),
    }
}

/// Adds an array of `many` numbers from `-most` to `most`, and ends the line.
pub(crate) fn push_array(
    text: &mut String,
    numbers: &mut Numbers,
    many: u32,
    most: u32,
) -> Result<(), AllocError> {
    text.push_str("[")?;
    for _ in 0..many {
        let number = numbers.around(most);
        write!(text, "{number}, ")?;
    }
    text.push_str("]\n")
}
