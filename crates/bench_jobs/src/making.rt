//! Filters, converters and long documents.

use crate::files::design_in;
use crate::playing::{Playing, Source, Way};
use anyhow::{Result, bail};
use bench_inputs::graphs::Graph;
use bench_inputs::long::{SAME_FILE, same_costs, same_taps};
use bench_inputs::noise::Level;
use bench_inputs::numbers::{Numbers, show};
use sdf_file::{CoefficientFile, Design};
use sdf_filters::{Band, ConverterTexts, FilterSpec, StageFile, converter_texts, filter_texts};
use sdf_profile::costed_text;
use sdf_texts::check_text;
use std::alloc::Global;
use std::rt::Files;
use std::thread::Threads;

/// Pairs of rates to convert between.
const RATES: [(u32, u32); 6] = [
    (44_100, 48_000),
    (48_000, 44_100),
    (96_000, 44_100),
    (8000, 48_000),
    (22_050, 16_000),
    (37_800, 44_100),
];

/// Makes `filters` filters of each kind, one with sums far from their totals, converters and long documents.
pub(crate) fn make<R: AllocGlobal + Files + Print + Sync + Threads>(
    playing: &mut Playing<'_, R>,
    filters: u32,
) -> Result<()> {
    make_kinds(playing.rt, &mut playing.numbers, filters)?;
    make_converters(playing.rt, &mut playing.numbers, filters)?;
    let noise = playing.noise(1, Level::Full);
    playing.run(
        "long lists",
        Source::Made(Graph::Long),
        Way::OneThread,
        noise,
    )?;
    read_same(playing)
}

/// Makes `filters` filters of each kind, and one with sums far from their totals.
fn make_kinds<R: AllocGlobal + Print>(rt: &R, numbers: &mut Numbers, filters: u32) -> Result<()> {
    for turn in 0..filters {
        make_filters(rt, numbers, turn)?;
    }
    let wanted = damped_little(numbers);
    make_filter(rt, "low-pass that is damped little", wanted)
}

/// Describes a narrow filter.
fn narrow(band: Band) -> FilterSpec {
    FilterSpec {
        rate: 44_100,
        band,
        attenuation: 80,
        up: 1,
        shift: 15,
    }
}

/// Makes a narrow low-pass, a high-pass and a band-pass, at other frequencies in each turn.
fn make_filters<R: AllocGlobal + Print>(rt: &R, numbers: &mut Numbers, turn: u32) -> Result<()> {
    let least = turn.saturating_mul(300).saturating_add(300);
    let pass = numbers.between(least, least.saturating_add(299));
    let low = Band::Low {
        pass,
        stop: pass.saturating_add(250),
    };
    let high = Band::High {
        stop: pass,
        pass: pass.saturating_add(300),
    };
    let middle = Band::Middle {
        low_stop: pass,
        low_pass: pass.saturating_add(250),
        pass: pass.saturating_add(4000),
        stop: pass.saturating_add(4300),
    };
    make_filter(rt, "low-pass", narrow(low))?;
    make_filter(rt, "high-pass", narrow(high))?;
    make_filter(rt, "band-pass", narrow(middle))
}

/// Describes a low-pass whose rounded taps are far from the exact sums of its 64 phases.
fn damped_little(numbers: &mut Numbers) -> FilterSpec {
    let stop = numbers.between(286, 300);
    FilterSpec {
        rate: 4_000_000,
        band: Band::Low { pass: 0, stop },
        attenuation: 9,
        up: 64,
        shift: 10,
    }
}

/// Makes one filter.
fn make_filter<R: AllocGlobal + Print>(rt: &R, name: &str, wanted: FilterSpec) -> Result<()> {
    let texts = filter_texts(rt.alloc(), wanted)?;
    show_filter(rt, name, &texts.file, &texts.summary)
}

/// Prints the digests of a filter and of what its taps do.
fn show_filter(rt: &impl Print, name: &str, file: &str, summary: &str) -> Result<()> {
    show(rt, name, file.as_bytes())?;
    Ok(show(rt, "what its taps do", summary.as_bytes())?)
}

/// Makes converters between pairs of rates.
fn make_converters<R: AllocGlobal + Print>(
    rt: &R,
    numbers: &mut Numbers,
    converters: u32,
) -> Result<()> {
    for (from, to) in RATES.iter().take(converters as usize) {
        make_converter(rt, *from, *to, numbers.between(60, 100))?;
    }
    Ok(())
}

/// Makes a converter and reads its design.
fn make_converter<R: AllocGlobal + Print>(
    rt: &R,
    from: u32,
    to: u32,
    attenuation: u32,
) -> Result<()> {
    let texts = converter_texts(rt.alloc(), from, to, 2, attenuation)?;
    show_converter(rt, &texts)
}

/// Prints the digests of a converter.
fn show_converter<R: AllocGlobal + Print>(rt: &R, texts: &ConverterTexts) -> Result<()> {
    show_stages(rt, &texts.files)?;
    show_design(rt, &converter_design(rt.alloc(), texts)?)
}

/// Prints the digests of the stages of a converter.
fn show_stages(rt: &impl Print, files: &[StageFile]) -> Result<()> {
    for file in files {
        show_filter(rt, "stage", &file.text, &file.summary)?;
    }
    Ok(())
}

/// Adds the coefficient file `name` with the text `said`.
fn push_file(
    alloc: Global,
    files: &mut Vec<CoefficientFile>,
    name: &str,
    said: &str,
) -> Result<()> {
    let name = String::from_str(alloc, name)?;
    let bytes = Vec::from_slice(alloc, said.as_bytes())?;
    Ok(files.push(CoefficientFile { name, bytes })?)
}

/// Reads the design of a converter.
pub(crate) fn converter_design(alloc: Global, texts: &ConverterTexts) -> Result<Design> {
    let mut files = Vec::new(alloc);
    for stage in &texts.files {
        push_file(alloc, &mut files, &stage.name, &stage.text)?;
    }
    design_in(alloc, texts.graph.as_bytes(), &files)
}

/// Returns `text` without the line of the rate, which ends it. So digests are equal to those of builds whose converters
/// have no rate.
fn without_rate(text: &str) -> &str {
    match text.rsplit_once("rate ") {
        Some((before, _)) => before,
        None => text,
    }
}

/// Prints the digest of what `check` prints of a converter, except for its rate.
fn show_design<R: AllocGlobal + Print>(rt: &R, design: &Design) -> Result<()> {
    let text = check_text(rt.alloc(), design)?;
    Ok(show(rt, "converter", without_rate(text.as_str()).as_bytes())?)
}

/// Reads a chain of filters that name the same file, writes other costs into its text, and runs it.
fn read_same<R: AllocGlobal + Files + Print + Sync + Threads>(
    playing: &mut Playing<'_, R>,
) -> Result<()> {
    let alloc = playing.rt.alloc();
    let graph = Graph::Same.text(alloc, &mut playing.numbers)?;
    let taps = same_taps(alloc, &mut playing.numbers)?;
    let mut files = Vec::new(alloc);
    push_file(alloc, &mut files, SAME_FILE, &taps)?;
    write_costs(playing.rt, &mut playing.numbers, graph.as_bytes(), &files)?;
    play_same(playing, graph.as_bytes(), &files)
}

/// Runs the chain.
fn play_same<R: AllocGlobal + Files + Print + Sync + Threads>(
    playing: &mut Playing<'_, R>,
    graph: &[u8],
    files: &[CoefficientFile],
) -> Result<()> {
    playing.length = playing.length.part(35);
    let noise = playing.noise(1, Level::Half);
    let chain = Source::Text(graph, files);
    playing.run("filters of one file", chain, Way::OneThread, noise)
}

/// Prints the digest of a graph file with other costs.
fn write_costs<R: AllocGlobal + Print>(
    rt: &R,
    numbers: &mut Numbers,
    graph: &[u8],
    files: &[CoefficientFile],
) -> Result<()> {
    let costs = same_costs(rt.alloc(), numbers)?;
    match costed_text(rt.alloc(), graph, files, &costs) {
        Ok(text) => Ok(show(rt, "other costs", &text)?),
        Err(_) => bail!("the costs are not written"),
    }
}
