//! A design and its schedule as one picture.

ghost use Rattle.std.specs.Prelude.{◌≡◌, ◌<◌, ◌≤◌, ◌++◌, IfOk, MatchResult, OnOk, length, string_bytes, codes};
ghost use Rattle.sdf_limits.specs.declared.TheConstants.{MAX_WORKERS};
ghost use Rattle.sdf_plan.specs.Schedules.{IsDesignScheduleFault};
ghost use Rattle.sdf_draw.specs.Bars.{AreDrawable};
ghost use Rattle.sdf_draw.specs.Drawings.{drawing_value, IsDrawing};
ghost use Rattle.sdf_draw.specs.Pictures.{size_text, view_text, page_text, legend_text, head_text, chart_top};
ghost use Rattle.sdf_draw.specs.Pictures.{width_of, origin_text, picture_text, IsPicture};

use crate::arrows::push_arrows;
use crate::boxes::push_boxes;
use crate::chart::{CHART, ROW, push_chart};
use crate::layout::{Layout, layout_of};
use crate::texts::push_number;
use sdf_analyze::Figures;
use sdf_faults::Fault;
use sdf_file::Design;
use sdf_options::Options;
use sdf_plan::schedule::{DesignSchedule, design_schedule};
use sdf_prec::Table;
use sdf_sched::Period;
use std::alloc::{AllocError, Global};

/// The x of the picture's left edge, left of the first boxes.
const LEFT: u64 = 150;

/// The x at which the times begin.
const ZERO: u64 = 250;

const HEAD_TEXT: &str = "<svg xmlns='http://www.w3.org/2000/svg' font-size='12' \
    font-family='ui-monospace, Menlo, Consolas, DejaVu Sans Mono, monospace'";

/// The styles, with colours for light and dark pages that colour-blind readers can distinguish.
const STYLE: &str = "<style>
.page{fill:#ffffff}text{fill:#1a1a1a}.soft{fill:#5a5a5a}.mid{text-anchor:middle}.end{text-anchor:end}
.box{fill:#f3f3f1;stroke-width:2}.way{fill:none;stroke-width:1.4;marker-end:url(#head)}.way:hover{stroke-width:5}
.dot{fill:#1a1a1a}.rule{fill:none;stroke:#bdbdbd}.bound{fill:none;stroke:#1a1a1a;stroke-width:1.6;stroke-dasharray:5 3}
.s0{stroke:#0072b2}.s1{stroke:#d55e00}.s2{stroke:#009e73}.s3{stroke:#cc79a7}.s4{stroke:#e69f00}.s5{stroke:#56b4e9}
.s6{stroke:#808080}
.f0{fill:#0072b2}.f1{fill:#d55e00}.f2{fill:#009e73}.f3{fill:#cc79a7}.f4{fill:#e69f00}.f5{fill:#56b4e9}.f6{fill:#808080}
@media (prefers-color-scheme:dark){.page{fill:#161618}text,.dot{fill:#ececec}.soft{fill:#a8a8a8}.box{fill:#242428}
.rule{stroke:#55555c}.bound{stroke:#ececec}.s0{stroke:#3d9fdc}.f0{fill:#3d9fdc}.s5{stroke:#f0e442}.f5{fill:#f0e442}}
</style>
<defs><marker id='head' viewBox='0 0 8 8' refX='7' refY='4' markerWidth='8' markerHeight='8' \
markerUnits='userSpaceOnUse' orient='auto'><path class='dot' d='M0 0 L8 4 L0 8 z'/></marker></defs>
";

/// The explanation of the numbers.
const LEGEND: &str =
    "Above an arrow's ends: samples of a firing, as 4 or as 4/16, which is 4 in 16 firings. \
    Below its end: its capacity. A dot: samples that it begins with. q: firings of a period.";

/// Adds the beginning of the picture, with its width and its height.
#[tactic(auto, unfolding(crate::specs::Pictures::size_text))]
fn push_size(text: &mut String, width: u64, height: u64) -> Result<(), AllocError>
    ensures { OnOk result (string_bytes text.new ≡ string_bytes text.old ++ size_text width height) }
{
    text.push_str(HEAD_TEXT)?;
    push_number(text, " width='", width)?;
    push_number(text, "' height='", height)
}

/// Adds the part of the plane that is shown, from `LEFT` on.
#[tactic(auto, unfolding(crate::specs::Pictures::view_text))]
fn push_view(text: &mut String, width: u64, height: u64) -> Result<(), AllocError>
    ensures { OnOk result (string_bytes text.new ≡ string_bytes text.old ++ view_text width height) }
{
    push_number(text, "' viewBox='", LEFT)?;
    push_number(text, " 0 ", width)?;
    push_number(text, " ", height)?;
    text.push_str("'>\n")
}

/// Adds the styles, and the page behind everything.
#[tactic(auto, unfolding(crate::specs::Pictures::page_text))]
fn push_page(text: &mut String, width: u64, height: u64) -> Result<(), AllocError>
    ensures { OnOk result (string_bytes text.new ≡ string_bytes text.old ++ page_text width height) }
{
    text.push_str(STYLE)?;
    push_number(text, "<rect class='page' x='", LEFT)?;
    push_number(text, "' width='", width)?;
    push_number(text, "' height='", height)?;
    text.push_str("'/>\n")
}

/// Adds the explanation of the numbers.
#[tactic(auto, unfolding(crate::specs::Pictures::legend_text))]
fn push_legend(text: &mut String) -> Result<(), AllocError>
    ensures { OnOk result (string_bytes text.new ≡ string_bytes text.old ++ legend_text) }
{
    push_number(text, "<text class='soft' y='24' x='", LEFT + 20)?;
    text.push_str("'>")?;
    text.push_str(LEGEND)?;
    text.push_str("</text>\n")
}

/// Adds the text before the arrows.
fn push_head(text: &mut String, width: u64, height: u64) -> Result<(), AllocError>
    ensures { OnOk result (string_bytes text.new ≡ string_bytes text.old ++ head_text width height) }
{
    push_size(text, width, height)?;
    push_view(text, width, height)?;
    push_page(text, width, height)?;
    push_legend(text)
}

/// Returns the y at which the times begin, below the lanes under the boxes.
fn chart_top(layout: &Layout) -> u64
    ensures is { result ≡ chart_top layout.now.places.items layout.now.below }
    ensures small { result < 3000000000000 }
{
    layout.lane_below(layout.below) + 80
}

/// Returns the width of the picture.
fn width_of(layout: &Layout) -> u64
    ensures { result ≡ width_of layout.now.places.items }
{
    layout.right().max(ZERO + CHART) + 100 - LEFT
}

/// Adds the beginning of the chart's group, whose origin is at `ZERO` and `top`.
#[tactic(auto, unfolding(crate::specs::Pictures::origin_text))]
fn push_origin(text: &mut String, top: u64) -> Result<(), AllocError>
    ensures { OnOk result (string_bytes text.new ≡ string_bytes text.old ++ origin_text top) }
{
    push_number(text, "<g transform='translate(", ZERO)?;
    push_number(text, ",", top)?;
    text.push_str(")'>\n")
}

/// The period and the table of a schedule, the table's figures, and the layout of the graph.
#[derive(Drop)]
struct Drawing {
    period: Period,
    table: Table,
    figures: Figures,
    layout: Layout,
}

/// Returns the text of the picture.
fn picture(
    alloc: Global,
    design: &Design,
    drawing: &Drawing,
    workers: usize,
) -> Result<String, AllocError>
    requires few { workers ≤ MAX_WORKERS }
    requires fire { length drawing.now.period.repetitions ≡ length design.now.net.nodes }
    requires boxes { length drawing.now.layout.places.items ≡ length design.now.net.nodes }
    requires routes { length drawing.now.layout.routes.items ≡ length design.now.net.wires }
    requires capacities { length drawing.now.table.caps ≡ length design.now.net.wires }
    requires bars { AreDrawable design.now workers drawing.now.table drawing.now.figures.starts }
    ensures { IfOk result (λ s. string_bytes s ≡ picture_text design.now workers (drawing_value drawing.now)) }
{
    let layout = &drawing.layout;
    let top = chart_top(layout);
    let mut text = String::new(alloc);
    push_head(&mut text, width_of(layout), top + ROW * workers as u64 + 40)?;
    push_arrows(&mut text, design, layout, &drawing.table)?;
    push_boxes(&mut text, design, &drawing.period, layout)?;
    push_origin(&mut text, top)?;
    push_chart(
        alloc,
        &mut text,
        design,
        &drawing.table,
        &drawing.figures,
        workers,
    )?;
    text.push_str("</g>\n</svg>\n")?;
    Ok(text)
}

/// Returns the drawing of `design` by `options`.
#[tactic(auto, using(crate::proofs::Drawable::memory_shows))]
fn drawing_of(alloc: Global, design: &Design, options: &Options) -> Result<Drawing, Fault>
    ensures { MatchResult result (λ w. IsDrawing design.now options.now (drawing_value w))
        (IsDesignScheduleFault design.now options.now) }
{
    // Its contract says that the design is whole (`IsDesign`).
    let _ = design.net();
    let DesignSchedule { period, block } = design_schedule(alloc, design, options)?;
    let placed = options.with_blocking(block.blocking);
    let figures = Figures::of(alloc, design, &placed, &period, &block.table)?;
    // Its contract says that the work of `figures` is bounded.
    let _ = figures.makespan();
    let layout = layout_of(alloc, design, period.order())?;
    Ok(Drawing {
        period,
        table: block.table,
        figures,
        layout,
    })
}

/// Returns the SVG that the command `draw` prints. It shows the actors of `design` as boxes, its links as arrows, and
/// below them the firings of its schedule against time. The tests are listed at `sdf_plan::schedule::design_schedule`.
pub fn svg(alloc: Global, design: &Design, options: &Options) -> Result<String, Fault>
    ensures { MatchResult result (λ s. IsPicture design.now options.now (string_bytes s))
        (IsDesignScheduleFault design.now options.now) }
{
    let drawing = drawing_of(alloc, design, options)?;
    Ok(picture(alloc, design, &drawing, options.workers)?)
}
