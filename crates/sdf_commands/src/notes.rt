//! The notes on a run that ended well: what of the sound was not read, and that the design is made for another rate.

use crate::sounds::{header_of, says_empty};
use sdf_file::Design;
use sdf_io::input::{InputTrace, has_more};
use sdf_options::printable::printable;
use sdf_why::{channels_note, cut_note, size_note};
use std::alloc::{AllocError, Global};
use std::io::Read;

/// Returns `part` over `whole` with three digits behind the point, or no text if `whole` is 0.
fn quotient_text(alloc: Global, part: u32, whole: u32) -> Result<String, AllocError> {
    if whole == 0 {
        return Ok(String::new(alloc));
    }
    let thousandths = (2000 * u64::from(part) + u64::from(whole)) / (2 * u64::from(whole));
    format!(in alloc;
        "{}.{}{}{}",
        thousandths / 1000,
        thousandths / 100 % 10,
        thousandths / 10 % 10,
        thousandths % 10
    )
}

/// Returns the note on a `sound` whose `rate` is not the one that the design is made for. It is empty if the rates are
/// equal, or if the design has none.
fn rate_note(alloc: Global, design: &Design, sound: &str, rate: u32) -> Result<String, AllocError> {
    let Some(wanted) = design.rate() else {
        return Ok(String::new(alloc));
    };
    if wanted == rate {
        return Ok(String::new(alloc));
    }
    let shown = printable(alloc, sound)?;
    let quotient = quotient_text(alloc, rate, wanted)?;
    format!(in alloc;
        "the design is for {wanted} Hz, {} has {rate}: its frequencies are {} times as high\n",
        shown.as_str(),
        quotient.as_str()
    )
}

/// Returns the notes on the header of `sound` for `design`.
fn header_notes(
    alloc: Global,
    design: &Design,
    trace: &InputTrace,
    sound: &str,
) -> Result<String, AllocError> {
    let Some(header) = header_of(trace) else {
        return Ok(String::new(alloc));
    };
    let channels = header.channels as usize;
    let mut text = channels_note(alloc, sound, design.net().inputs(), channels)?;
    let rates = rate_note(alloc, design, sound, header.rate)?;
    text.push_str(rates.as_str())?;
    Ok(text)
}

/// Returns the notes on a run of `design` on `sound`. `from` is at the end of what was read: if the header says that
/// there are no samples, a byte more is read.
pub fn notes_text<R: Read>(
    alloc: Global,
    from: &mut R,
    design: &Design,
    trace: &InputTrace,
    sound: &str,
) -> Result<String, AllocError> {
    let mut text = header_notes(alloc, design, trace, sound)?;
    if says_empty(trace) && has_more(from) {
        text.push_str(size_note(alloc, sound)?.as_str())?;
    }
    text.push_str(cut_note(alloc, sound, trace.left_out)?.as_str())?;
    Ok(text)
}
