//! Designs that convert between usual rates: each is accepted, and its rates are right.

use sdf_file::{CoefficientFile, Design, read_design};
use sdf_filters::{ConverterTexts, converter_texts};
use std::alloc::Global;
use std::test::Fail;
use test_texts::says;

const RATES: [u32; 11] = [
    8000, 11_025, 16_000, 22_050, 24_000, 32_000, 44_100, 48_000, 88_200, 96_000, 192_000,
];

/// Returns the design of the texts.
fn design_of(alloc: Global, texts: &ConverterTexts) -> Result<Design, Fail> {
    let mut files = Vec::new(alloc);
    for file in &texts.files {
        files.push(CoefficientFile {
            name: file.name.clone()?,
            bytes: Vec::from_slice(alloc, file.text.as_bytes())?,
        })?;
    }
    Ok(read_design(alloc, texts.graph.as_bytes(), &files)?)
}

/// Adds a conversion if its design has another ratio of rates.
fn push_wrong(alloc: Global, wrong: &mut String, from: u32, to: u32) -> Result<(), Fail> {
    let design = design_of(alloc, &converter_texts(alloc, from, to, 1, 96)?)?;
    let input = design.net().samples_in() as u64;
    let output = design.net().samples_out() as u64;
    if u64::from(to) * input != u64::from(from) * output {
        writeln!(wrong, "{from} to {to}: {input} to {output}")?;
    }
    Ok(())
}

/// Returns the conversions between usual rates whose designs have another ratio of rates.
fn wrong_conversions(alloc: Global) -> Result<String, Fail> {
    let mut wrong = String::new(alloc);
    for from in RATES {
        for to in RATES {
            push_wrong(alloc, &mut wrong, from, to)?;
        }
    }
    Ok(wrong)
}

/// Returns the stages of a conversion, as its graph file has them, and whether each file of taps names the
/// `attenuation`.
fn stages(alloc: Global, from: u32, to: u32, attenuation: u32) -> Result<String, Fail> {
    let texts = converter_texts(alloc, from, to, 1, attenuation)?;
    let mut text = String::new(alloc);
    for line in texts.graph.as_str().lines() {
        if line.starts_with("up = ") || line.starts_with("down = ") {
            write!(text, "{line} ")?;
        }
    }
    let asked = format!(in alloc; " Hz, {attenuation} dB\n")?;
    for file in &texts.files {
        let is_asked = file.text.as_str().contains(asked.as_str());
        write!(text, "{is_asked} ")?;
    }
    Ok(text)
}

/// Tests that stages and taps depend on the attenuation.
#[test]
fn stages_by_attenuation(rt: HostRuntime) -> Result<(), Fail> {
    says(
        stages(rt.alloc(), 44_100, 8000, 96),
        "up = 20 down = 63 up = 4 down = 7 true true ",
    )?;
    says(
        stages(rt.alloc(), 44_100, 8000, 120),
        "up = 16 down = 49 up = 5 down = 9 true true ",
    )?;
    says(
        stages(rt.alloc(), 8000, 22_050, 150),
        "up = 7 down = 5 up = 21 down = 16 up = 3 down = 2 true true true ",
    )
}

/// Returns the numbers of actors and links of a design with `channels` channels.
fn size(alloc: Global, channels: u32) -> Result<String, Fail> {
    let texts = converter_texts(alloc, 48_000, 44_100, channels, 96)?;
    let design = design_of(alloc, &texts)?;
    let (actors, links) = (design.net().len(), design.net().channels());
    Ok(format!(in alloc; "{actors} {links}")?)
}

/// Tests that each text is a design, that no filter has more taps than it may have, and that stages have the right
/// ratio. Also tests that channels are joined, and that no port is left out.
#[test]
fn conversions(rt: HostRuntime) -> Result<(), Fail> {
    says(wrong_conversions(rt.alloc()), "")?;
    says(size(rt.alloc(), 1), "4 3")?;
    says(size(rt.alloc(), 2), "11 10")?;
    says(size(rt.alloc(), 8), "47 46")
}
