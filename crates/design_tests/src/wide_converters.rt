//! Designs with wide taps: each is accepted and has the right ratio, and filters are as good as they are to be.

use sdf_file::{CoefficientFile, Design, read_design};
use sdf_filters::{ConverterTexts, USUAL_ATTENUATION, USUAL_PASS, WideSpec, wide_converter_texts};
use std::alloc::Global;
use std::test::Fail;
use test_texts::says;

/// Returns the conversion of usual attenuation and band.
fn wanted(from: u32, to: u32, channels: u32) -> WideSpec {
    WideSpec {
        from,
        to,
        channels,
        attenuation: USUAL_ATTENUATION,
        pass: USUAL_PASS,
    }
}

/// Returns the texts of a conversion.
fn texts(alloc: Global, from: u32, to: u32, channels: u32) -> Result<ConverterTexts, Fail> {
    Ok(wide_converter_texts(alloc, wanted(from, to, channels))?)
}

/// Returns the design of the texts.
fn design_of(alloc: Global, texts: &ConverterTexts) -> Result<Design, Fail> {
    let mut files = Vec::new(alloc);
    for file in &texts.files {
        files.push(CoefficientFile {
            name: file.name.clone()?,
            bytes: Vec::from_slice(alloc, file.text.as_bytes())?,
        })?;
    }
    Ok(read_design(alloc, texts.graph.as_bytes(), &files)?)
}

/// Returns the frames of the input and of the output in a period, the delay, and the numbers of taps of the stages.
fn told(alloc: Global, from: u32, to: u32) -> Result<String, Fail> {
    let texts = texts(alloc, from, to, 1)?;
    let design = design_of(alloc, &texts)?;
    let (input, output) = (design.net().samples_in(), design.net().samples_out());
    let mut text = format!(in alloc; "{input} {output} late {}:", texts.delay)?;
    for file in &texts.files {
        if let Some((count, _)) = file.summary.as_str().split_once(" taps: ") {
            write!(text, " {count}")?;
        }
    }
    Ok(text)
}

/// Conversions, and the line for each of them. An implementation in Python, made before this one, has the same numbers.
const ROWS: &[(u32, u32, &str)] = &[
    (44_100, 48_000, "147 160 late 88: 571 959"),
    (48_000, 44_100, "160 147 late 80: 931 569"),
    (96_000, 44_100, "320 147 late 76: 979 711"),
    (44_100, 96_000, "147 320 late 175: 715 1023"),
];

/// Tests the stages, their taps and the delays. Refuses a rule of stages that stops more than it has to, filters that
/// are placed by Kaiser's formula alone, and zeros that are not the cheapest.
#[test]
fn wide_conversions(rt: HostRuntime) -> Result<(), Fail> {
    for &(from, to, wanted) in ROWS {
        says(told(rt.alloc(), from, to), wanted)?;
    }
    Ok(())
}

/// Returns the numbers of actors and links of a design with `channels` channels, or the fault.
fn size(alloc: Global, from: u32, channels: u32) -> Result<String, Fail> {
    let texts = texts(alloc, from, 44_100, channels)?;
    let design = design_of(alloc, &texts)?;
    let (actors, links) = (design.net().len(), design.net().channels());
    Ok(format!(in alloc; "{actors} {links}")?)
}

/// Returns the fault of a conversion.
fn fault(alloc: Global, from: u32, channels: u32) -> Result<String, Fail> {
    match wide_converter_texts(alloc, wanted(from, 44_100, channels)) {
        Ok(_) => Ok(String::new(alloc)),
        Err(fault) => Ok(fault.to_string(alloc)?),
    }
}

/// Tests that channels are joined, that no port is left out, and how many channels fit.
#[test]
fn wide_channels(rt: HostRuntime) -> Result<(), Fail> {
    let alloc = rt.alloc();
    says(size(alloc, 48_000, 1), "14 15")?;
    says(size(alloc, 48_000, 2), "31 34")?;
    says(size(alloc, 44_100, 8), "31 30")?;
    says(
        fault(alloc, 48_000, 5),
        "5 channels need more than 64 actors, and 4 fit: use fewer channels, or --fast",
    )?;
    says(fault(alloc, 0, 1), "a rate is 0: both must be at least 1")
}

/// The beginning of the second file of the first stage from 48,000 to 44,100 Hz: 15 zeros, and then the taps.
const ZEROS: &str =
    "format = 1\nvalues = [\n  0, 0, 0, 0, 0, 0, 0, 0, 0, 0, 0, 0,\n  0, 0, 0, -9, -9, -8, -8, -7, -5, ";

/// Its end, which is the same backwards.
const LAST: &str = " -5, -7, -8, -8, -9, -9\n]\n";

/// Tests that zeros stand in front, and that taps are symmetric behind them. An implementation in Python has these
/// taps.
#[test]
fn zeros_in_front(rt: HostRuntime) -> Result<(), Fail> {
    let texts = texts(rt.alloc(), 48_000, 44_100, 1)?;
    let low = match texts.files.get(1) {
        Some(file) => file.text.as_str(),
        None => "",
    };
    if low.starts_with(ZEROS) && low.ends_with(LAST) {
        return Ok(());
    }
    Err(Fail::new(format_args!("{low}")))
}
