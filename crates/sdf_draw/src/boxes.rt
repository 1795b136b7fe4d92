//! The text of boxes.

ghost use Rattle.std.specs.Prelude.{◌≡◌, ◌<◌, ◌++◌, ◌+◌, OnOk, length, string_bytes, slice_index, codes};
ghost use Rattle.sdf_actor.specs.Nets.{node};
ghost use Rattle.sdf_draw.specs.Layouts.{place};
ghost use Rattle.sdf_draw.specs.Boxes.{point_text, points_text, source_corners, sink_corners, upper_corners};
ghost use Rattle.sdf_draw.specs.Boxes.{lower_corners, plain_corners, corners_text, outline_text, line_text};
ghost use Rattle.sdf_draw.specs.Boxes.{compression_text, label_text, firings_text, box_text, boxes_text};

use crate::layout::{BoxPlace, Layout, WIDTH};
use crate::ports::{Shape, shape_of};
use crate::texts::{COLOURS, push_name, push_number};
use sdf_file::Design;
use sdf_sched::Period;
use std::alloc::AllocError;

/// The length of the point at the side of a source or a sink.
const POINT: u64 = 14;

/// The size of the cut at each corner of a filter.
const CUT: u64 = 9;

/// The characters of the longest name that is drawn at its natural width. A longer name is compressed.
const FITTING: usize = 16;

fn push_point(text: &mut String, x: u64, y: u64) -> Result<(), AllocError>
    ensures { OnOk result (string_bytes text.new ≡ string_bytes text.old ++ point_text (x, y)) }
{
    push_number(text, " ", x)?;
    push_number(text, ",", y)
}

fn push_source(text: &mut String, place: BoxPlace) -> Result<(), AllocError>
    ensures { OnOk result (string_bytes text.new ≡ string_bytes text.old ++ points_text (source_corners place)) }
{
    push_point(text, place.left(), place.top())?;
    push_point(text, place.right() - POINT, place.top())?;
    push_point(text, place.right(), place.middle())?;
    push_point(text, place.right() - POINT, place.bottom())?;
    push_point(text, place.left(), place.bottom())
}

fn push_sink(text: &mut String, place: BoxPlace) -> Result<(), AllocError>
    ensures { OnOk result (string_bytes text.new ≡ string_bytes text.old ++ points_text (sink_corners place)) }
{
    push_point(text, place.left() + POINT, place.top())?;
    push_point(text, place.right(), place.top())?;
    push_point(text, place.right(), place.bottom())?;
    push_point(text, place.left() + POINT, place.bottom())?;
    push_point(text, place.left(), place.middle())
}

/// Adds the upper corners of a filter.
fn push_upper(text: &mut String, place: BoxPlace) -> Result<(), AllocError>
    ensures { OnOk result (string_bytes text.new ≡ string_bytes text.old ++ points_text (upper_corners place)) }
{
    push_point(text, place.left(), place.top() + CUT)?;
    push_point(text, place.left() + CUT, place.top())?;
    push_point(text, place.right() - CUT, place.top())?;
    push_point(text, place.right(), place.top() + CUT)
}

/// Adds the lower corners of a filter.
fn push_lower(text: &mut String, place: BoxPlace) -> Result<(), AllocError>
    ensures { OnOk result (string_bytes text.new ≡ string_bytes text.old ++ points_text (lower_corners place)) }
{
    let side = place.bottom().saturating_sub(CUT);
    push_point(text, place.right(), side)?;
    push_point(text, place.right() - CUT, place.bottom())?;
    push_point(text, place.left() + CUT, place.bottom())?;
    push_point(text, place.left(), side)
}

fn push_plain(text: &mut String, place: BoxPlace) -> Result<(), AllocError>
    ensures { OnOk result (string_bytes text.new ≡ string_bytes text.old ++ points_text (plain_corners place)) }
{
    push_point(text, place.left(), place.top())?;
    push_point(text, place.right(), place.top())?;
    push_point(text, place.right(), place.bottom())?;
    push_point(text, place.left(), place.bottom())
}

/// Adds the corners of `shape`.
#[tactic(auto, unfolding(crate::specs::Boxes::corners_text))]
fn push_corners(text: &mut String, shape: Shape, place: BoxPlace) -> Result<(), AllocError>
    ensures { OnOk result (string_bytes text.new ≡ string_bytes text.old ++ corners_text shape place) }
{
    match shape {
        Shape::Source => push_source(text, place),
        Shape::Sink => push_sink(text, place),
        Shape::Filter => {
            push_upper(text, place)?;
            push_lower(text, place)
        }
        Shape::Plain => push_plain(text, place),
    }
}

/// Adds the outline of `actor`, in its colour.
#[tactic(auto, unfolding(crate::specs::Boxes::outline_text))]
fn push_outline(
    text: &mut String,
    actor: usize,
    shape: Shape,
    place: BoxPlace,
) -> Result<(), AllocError>
    ensures { OnOk result (string_bytes text.new ≡ string_bytes text.old ++ outline_text actor shape place) }
{
    push_number(text, "<polygon class='box s", (actor % COLOURS) as u64)?;
    text.push_str("' points='")?;
    push_corners(text, shape, place)?;
    text.push_str("'/>")
}

/// Adds `word`, which begins a text, and the text's position: in the middle of the box, at `y`.
fn push_line(text: &mut String, word: &str, place: BoxPlace, y: u64) -> Result<(), AllocError>
    ensures { OnOk result (string_bytes text.new ≡ string_bytes text.old ++ line_text word.now place y) }
{
    text.push_str(word)?;
    push_number(text, " x='", place.left() + WIDTH / 2)?;
    push_number(text, "' y='", y)
}

/// Adds the attributes that compress a name of `characters` characters, if it has more than fit.
fn push_compression(text: &mut String, characters: usize) -> Result<(), AllocError>
    ensures { OnOk result (string_bytes text.new ≡ string_bytes text.old ++ compression_text characters) }
{
    if characters > FITTING {
        push_number(
            text,
            "' lengthAdjust='spacingAndGlyphs' textLength='",
            WIDTH - 36,
        )?;
    }
    Ok(())
}

/// Adds the name of `actor` in the middle of its box.
#[tactic(auto, unfolding(crate::specs::Boxes::label_text))]
fn push_label(
    text: &mut String,
    design: &Design,
    actor: usize,
    place: BoxPlace,
) -> Result<(), AllocError>
    ensures { OnOk result (string_bytes text.new ≡ string_bytes text.old ++ label_text design.now actor place) }
{
    push_line(
        text,
        "<text class='mid'",
        place,
        place.middle().saturating_sub(2),
    )?;
    push_compression(text, design.name(actor).len())?;
    text.push_str("'>")?;
    push_name(text, design, actor)?;
    text.push_str("</text>")
}

/// Adds the `firings` of an actor in a period, below its name.
#[tactic(auto, unfolding(crate::specs::Boxes::firings_text))]
fn push_firings(text: &mut String, firings: u32, place: BoxPlace) -> Result<(), AllocError>
    ensures { OnOk result (string_bytes text.new ≡ string_bytes text.old ++ firings_text firings place) }
{
    push_line(text, "<text class='mid soft'", place, place.middle() + 13)?;
    push_number(text, "'>q ", u64::from(firings))?;
    text.push_str("</text>\n")
}

/// Adds the box of `actor`, which fires `firings` times in a period.
#[tactic(auto, unfolding(crate::specs::Boxes::box_text))]
fn push_box(
    text: &mut String,
    design: &Design,
    actor: usize,
    place: BoxPlace,
    firings: u32,
) -> Result<(), AllocError>
    requires { actor < length design.now.net.nodes }
    ensures { OnOk result (string_bytes text.new ≡
        string_bytes text.old ++ box_text design.now actor place firings) }
{
    push_outline(text, actor, shape_of(design, actor), place)?;
    push_label(text, design, actor, place)?;
    push_firings(text, firings, place)
}

/// Adds the box of `actor` at its place in `layout`.
fn push_placed(
    text: &mut String,
    design: &Design,
    period: &Period,
    layout: &Layout,
    actor: usize,
) -> Result<(), AllocError>
    requires actor { actor < length design.now.net.nodes }
    requires boxes { length layout.now.places.items ≡ length design.now.net.nodes }
    requires fire { length period.now.repetitions ≡ length design.now.net.nodes }
    ensures { OnOk result (string_bytes text.new ≡ string_bytes text.old ++ box_text design.now actor
        (place layout.now.places.items actor) (slice_index period.now.repetitions actor)) }
{
    let firings = period.repetitions()[actor];
    push_box(text, design, actor, layout.places[actor], firings)
}

/// Adds a box for each actor.
pub(crate) fn push_boxes(
    text: &mut String,
    design: &Design,
    period: &Period,
    layout: &Layout,
) -> Result<(), AllocError>
    requires boxes { length layout.now.places.items ≡ length design.now.net.nodes }
    requires fire { length period.now.repetitions ≡ length design.now.net.nodes }
    ensures { OnOk result (string_bytes text.new ≡ string_bytes text.old
        ++ boxes_text design.now period.now.repetitions layout.now.places.items) }
{
    for actor in 0..design.net().len() {
        push_placed(text, design, period, layout, actor)?;
    }
    Ok(())
}
