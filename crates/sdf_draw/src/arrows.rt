//! The text of arrows.

ghost use Rattle.std.specs.Prelude.{◌≡◌, ◌<◌, ◌≤◌, ◌++◌, OnOk, length, slice_index, string_bytes, codes};
ghost use Rattle.sdf_limits.specs.declared.TheConstants.{MAX_CYCLE, MAX_PORTS};
ghost use Rattle.sdf_draw.specs.Layouts.{IsNear, route};
ghost use Rattle.sdf_draw.specs.Edges.{edge};
ghost use Rattle.sdf_draw.specs.Arrows.{port_height, start_of, end_of, shift_of, curve_text, turns_text, route_text};
ghost use Rattle.sdf_draw.specs.Arrows.{stub_text, line_text, at_text, put_text, take_text, capacity_text};
ghost use Rattle.sdf_draw.specs.Arrows.{dot_text, initial_text, ends_text};
ghost use Rattle.sdf_draw.specs.Arrows.{arrow_text, arrows_text};

use crate::layout::{BoxPlace, Layout, PORT, Route, lane_above};
use crate::ports::{End, LinkEnds, channel_of, ends_of};
use crate::texts::{COLOURS, push_number, push_pair, push_rate};
use sdf_file::Design;
use sdf_graph::Channel;
use sdf_prec::Table;
use std::alloc::AllocError;

/// The length of the straight part at the beginning of an arrow, under the rate there.
const STUB: u64 = 40;

/// The length of the straight part at the end of an arrow, beside the rate, the samples and the capacity.
const TAIL: u64 = 72;

/// The beginning of a dot's text.
const DOT: &str = "<circle class='dot' r='4' cx='";

/// The number of places for vertical lines in a gap. They are `SHIFT` apart.
const SHIFTS: usize = 11;

const SHIFT: u64 = 4;

/// A point of the picture.
#[derive(Clone, Copy)]
pub(crate) struct Point {
    pub(crate) x: u64,
    pub(crate) y: u64,
}

/// Returns the y of `port` at the box in `place`. The `ports` of a side are centred on it.
fn port_height(place: BoxPlace, ports: usize, port: usize) -> u64
    requires { (ports ≤ MAX_PORTS) × (port < MAX_PORTS) }
    ensures is { result ≡ port_height place ports port }
    ensures small { result < 10000000000 }
{
    let rest = u64::from(place.height).saturating_sub(PORT * ports as u64);
    place.top() + rest / 2 + PORT * port as u64 + PORT / 2
}

/// Returns the point at which an arrow from `from` begins.
fn start_of(layout: &Layout, from: End) -> Point
    requires actor { from.actor < length layout.now.places.items }
    requires port { (from.ports ≤ MAX_PORTS) × (from.port < MAX_PORTS) }
    ensures is { result ≡ start_of layout.now.places.items from }
    ensures near { IsNear result }
{
    let place = layout.places[from.actor];
    Point {
        x: place.right(),
        y: port_height(place, from.ports, from.port),
    }
}

/// Returns the point at which an arrow to `to` ends.
fn end_of(layout: &Layout, to: End) -> Point
    requires actor { to.actor < length layout.now.places.items }
    requires port { (to.ports ≤ MAX_PORTS) × (to.port < MAX_PORTS) }
    ensures is { result ≡ end_of layout.now.places.items to }
    ensures near { IsNear result }
{
    let place = layout.places[to.actor];
    Point {
        x: place.left(),
        y: port_height(place, to.ports, to.port),
    }
}

/// Adds the curve of an arrow across a gap.
#[tactic(auto, unfolding(crate::specs::Arrows::curve_text))]
fn push_curve(text: &mut String, start: Point, end: Point) -> Result<(), AllocError>
    requires { IsNear start }
    ensures { OnOk result (string_bytes text.new ≡ string_bytes text.old ++ curve_text start end) }
{
    push_number(text, " C", start.x + STUB + 40)?;
    push_number(text, " ", start.y)?;
    push_number(text, " ", end.x.saturating_sub(TAIL + 40))?;
    push_number(text, " ", end.y)?;
    push_number(text, " ", end.x.saturating_sub(TAIL))?;
    push_number(text, " ", end.y)
}

/// Adds the corners of an arrow that uses the lane at y `lane`. Its vertical lines are moved by `shift`.
#[tactic(auto, unfolding(crate::specs::Arrows::turns_text))]
fn push_turns(
    text: &mut String,
    start: Point,
    end: Point,
    lane: u64,
    shift: u64,
) -> Result<(), AllocError>
    requires start { IsNear start }
    requires shift { shift < 1000 }
    ensures { OnOk result (string_bytes text.new ≡ string_bytes text.old ++ turns_text start end lane shift) }
{
    push_number(text, " H", start.x + STUB + shift)?;
    push_number(text, " V", lane)?;
    push_number(text, " H", end.x.saturating_sub(TAIL + shift))?;
    push_number(text, " V", end.y)
}

/// Adds the part of an arrow between its straight parts.
fn push_route(
    text: &mut String,
    layout: &Layout,
    link: usize,
    start: Point,
    end: Point,
) -> Result<(), AllocError>
    requires link { link < length layout.now.routes.items }
    requires start { IsNear start }
    ensures { OnOk result (string_bytes text.new ≡ string_bytes text.old
        ++ route_text layout.now.places.items (route layout.now.routes.items link) (shift_of link) start end) }
{
    let shift = (link % SHIFTS) as u64 * SHIFT;
    match layout.routes[link] {
        Route::Across => push_curve(text, start, end),
        Route::Above(lane) => push_turns(text, start, end, lane_above(lane), shift),
        Route::Below(lane) => push_turns(text, start, end, layout.lane_below(lane), shift),
    }
}

/// Adds the straight part at the beginning of a line, in `colour`.
#[tactic(auto, unfolding(crate::specs::Arrows::stub_text))]
fn push_stub(text: &mut String, colour: usize, start: Point) -> Result<(), AllocError>
    requires { IsNear start }
    ensures { OnOk result (string_bytes text.new ≡ string_bytes text.old ++ stub_text colour start) }
{
    push_number(text, "<path class='way s", colour as u64)?;
    push_number(text, "' d='M", start.x)?;
    push_number(text, " ", start.y)?;
    push_number(text, " H", start.x + STUB)
}

/// Adds the line of an arrow, in the `colour` of the actor that it comes from.
#[tactic(auto, unfolding(crate::specs::Arrows::line_text))]
fn push_line(
    text: &mut String,
    layout: &Layout,
    link: usize,
    colour: usize,
    start: Point,
    end: Point,
) -> Result<(), AllocError>
    requires link { link < length layout.now.routes.items }
    requires start { IsNear start }
    ensures { OnOk result (string_bytes text.new ≡ string_bytes text.old
        ++ line_text layout.now.places.items (route layout.now.routes.items link) link colour start end) }
{
    push_stub(text, colour, start)?;
    push_route(text, layout, link, start, end)?;
    push_number(text, " H", end.x.saturating_sub(2))?;
    text.push_str("'/>")
}

/// Adds `word`, which begins a text, and the text's position.
fn push_at(text: &mut String, word: &str, x: u64, y: u64) -> Result<(), AllocError>
    ensures { OnOk result (string_bytes text.new ≡ string_bytes text.old ++ at_text word.now x y) }
{
    push_pair(text, word, x, "' y='", y)
}

/// Adds the samples that firings put on a link, at the beginning of its arrow.
#[tactic(auto, unfolding(crate::specs::Arrows::put_text))]
fn push_put(text: &mut String, channel: &Channel, start: Point) -> Result<(), AllocError>
    requires start { IsNear start }
    requires rates { length channel.now.put ≤ MAX_CYCLE }
    ensures { OnOk result (string_bytes text.new ≡ string_bytes text.old ++ put_text channel.now.put start) }
{
    push_at(text, "<text x='", start.x + 5, start.y.saturating_sub(4))?;
    text.push_str("'>")?;
    push_rate(text, channel.put.as_slice())?;
    text.push_str("</text>")
}

/// Adds the samples that firings take from a link, at the end of its arrow.
#[tactic(auto, unfolding(crate::specs::Arrows::take_text))]
fn push_take(text: &mut String, channel: &Channel, end: Point) -> Result<(), AllocError>
    requires { length channel.now.take ≤ MAX_CYCLE }
    ensures { OnOk result (string_bytes text.new ≡ string_bytes text.old ++ take_text channel.now.take end) }
{
    let (x, y) = (end.x.saturating_sub(9), end.y.saturating_sub(4));
    push_at(text, "<text class='end' x='", x, y)?;
    text.push_str("'>")?;
    push_rate(text, channel.take.as_slice())?;
    text.push_str("</text>")
}

/// Adds the capacity of a link, below the end of its arrow.
#[tactic(auto, unfolding(crate::specs::Arrows::capacity_text))]
fn push_capacity(text: &mut String, capacity: u64, end: Point) -> Result<(), AllocError>
    requires { IsNear end }
    ensures { OnOk result (string_bytes text.new ≡ string_bytes text.old ++ capacity_text capacity end) }
{
    let (x, y) = (end.x.saturating_sub(9), end.y + 11);
    push_at(text, "<text class='end soft' x='", x, y)?;
    push_number(text, "'>", capacity)?;
    text.push_str("</text>")
}

/// Adds a dot before the end of an arrow, and the number of samples that the link begins with.
#[tactic(auto, unfolding(crate::specs::Arrows::dot_text))]
fn push_dot(text: &mut String, initial: usize, end: Point) -> Result<(), AllocError>
    ensures { OnOk result (string_bytes text.new ≡ string_bytes text.old ++ dot_text initial end) }
{
    let (x, y) = (end.x.saturating_sub(TAIL - 2), end.y.saturating_sub(6));
    let dot = end.x.saturating_sub(TAIL - 4);
    push_pair(text, DOT, dot, "' cy='", end.y)?;
    push_at(text, "'/><text x='", x, y)?;
    push_number(text, "'>", initial as u64)?;
    text.push_str("</text>")
}

/// Adds the samples that a link begins with, if there are any.
fn push_initial(text: &mut String, initial: usize, end: Point) -> Result<(), AllocError>
    ensures { OnOk result (string_bytes text.new ≡ string_bytes text.old ++ initial_text initial end) }
{
    if initial == 0 {
        return Ok(());
    }
    push_dot(text, initial, end)
}

/// Adds the numbers at both ends of an arrow.
#[tactic(auto, unfolding(crate::specs::Arrows::ends_text))]
fn push_ends(
    text: &mut String,
    channel: &Channel,
    start: Point,
    end: Point,
) -> Result<(), AllocError>
    requires start { IsNear start }
    requires put { length channel.now.put ≤ MAX_CYCLE }
    requires take { length channel.now.take ≤ MAX_CYCLE }
    ensures { OnOk result (string_bytes text.new ≡ string_bytes text.old ++ ends_text channel.now start end) }
{
    push_put(text, channel, start)?;
    push_initial(text, channel.initial, end)?;
    push_take(text, channel, end)
}

/// Adds the arrow of `link`.
fn push_arrow(
    text: &mut String,
    design: &Design,
    layout: &Layout,
    table: &Table,
    link: usize,
) -> Result<(), AllocError>
    requires link { link < length design.now.net.wires }
    requires boxes { length layout.now.places.items ≡ length design.now.net.nodes }
    requires routes { length layout.now.routes.items ≡ length design.now.net.wires }
    requires capacities { length table.now.caps ≡ length design.now.net.wires }
    ensures { OnOk result (string_bytes text.new ≡ string_bytes text.old ++ arrow_text design.now table.now.caps
        layout.now.places.items layout.now.routes.items link) }
{
    let channel = channel_of(design, link);
    let LinkEnds { from, to } = ends_of(design, link);
    let start = start_of(layout, from);
    let end = end_of(layout, to);
    push_line(text, layout, link, channel.from % COLOURS, start, end)?;
    push_ends(text, channel, start, end)?;
    push_capacity(text, table.cap(link), end)?;
    text.push_str("\n")
}

/// Adds an arrow for each link.
pub(crate) fn push_arrows(
    text: &mut String,
    design: &Design,
    layout: &Layout,
    table: &Table,
) -> Result<(), AllocError>
    requires boxes { length layout.now.places.items ≡ length design.now.net.nodes }
    requires routes { length layout.now.routes.items ≡ length design.now.net.wires }
    requires capacities { length table.now.caps ≡ length design.now.net.wires }
    ensures { OnOk result (string_bytes text.new ≡ string_bytes text.old ++ arrows_text design.now table.now.caps
        layout.now.places.items layout.now.routes.items) }
{
    for link in 0..design.net().channels() {
        push_arrow(text, design, layout, table, link)?;
    }
    Ok(())
}
