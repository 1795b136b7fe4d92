//! The places of the actors' boxes, and the routes of the links' arrows. All lengths are pixels.

ghost use Rattle.std.specs.Prelude.{◌≡◌, ℕ, ◌+◌, ◌*◌, ◌<◌, ◌≤◌, ◌^◌, length, slice_index, max, IfOk};
ghost use Rattle.sdf_limits.specs.declared.TheConstants.{MAX_ACTORS, MAX_LINKS, MAX_PERIOD, MAX_PORTS};
ghost use Rattle.sdf_plan.specs.Placements.{rates_of};
ghost use Rattle.sdf_draw.specs.Layouts.{left_of, right_of, bottom_of, middle_of, stack_height, place, lowest};
ghost use Rattle.sdf_draw.specs.Layouts.{rightmost};
ghost use Rattle.sdf_draw.specs.Layouts.{lane_above, lane_below, ArePlaces, IsRoute, IsWithin, AreRoutes, IsLayout};

use crate::depths::depths;
use crate::ports::{PortCounts, ports_of};
use sdf_file::Design;
use std::alloc::{AllocError, Global};

/// The width of a box.
pub(crate) const WIDTH: u64 = 150;

/// The distance between the left sides of boxes whose depths differ by one.
pub(crate) const PITCH: u64 = 320;

/// The space between a box and the one below it.
pub(crate) const GAP: u64 = 26;

/// The height that a port takes at the side of a box.
pub(crate) const PORT: u64 = 30;

/// The height of a box beyond its ports.
pub(crate) const MARGIN: u64 = 10;

/// The distance from one lane of arrows to the next.
pub(crate) const LANE: u64 = 10;

/// The y of the highest lane.
pub(crate) const HEAD: u64 = 60;

/// The place of a box: its column, the y of its top, and its height.
#[derive(Clone, Copy, Debug, PartialEq, Eq)]
pub(crate) struct BoxPlace {
    pub(crate) depth: u32,
    pub(crate) y: u32,
    pub(crate) height: u16,
}

/// The route of an arrow: across the gap to the next boxes, in a lane above all boxes, or in a lane below them.
#[derive(Clone, Copy, Debug, PartialEq, Eq)]
pub(crate) enum Route {
    Across,
    Above(u32),
    Below(u32),
}

/// A box for each actor, a route for each link, and the numbers of lanes above the boxes and below them.
#[derive(Drop)]
pub(crate) struct Layout {
    pub(crate) places: Vec<BoxPlace>,
    pub(crate) routes: Vec<Route>,
    pub(crate) above: u32,
    pub(crate) below: u32,
}

impl BoxPlace {
    /// Returns the x of the left side.
    pub(crate) fn left(self) -> u64
        ensures is { result ≡ left_of self }
        ensures small { result < 1500000000000 }
    {
        PITCH * u64::from(self.depth)
    }

    /// Returns the x of the right side.
    pub(crate) fn right(self) -> u64
        ensures is { result ≡ right_of self }
        ensures small { result < 1500000000000 }
    {
        self.left() + WIDTH
    }

    /// Returns the y of the top.
    pub(crate) fn top(self) -> u64
        ensures { result ≡ self.y }
    {
        u64::from(self.y)
    }

    /// Returns the y of the bottom.
    pub(crate) fn bottom(self) -> u64
        ensures is { result ≡ bottom_of self }
        ensures small { result < 1000000000000 }
    {
        self.top() + u64::from(self.height)
    }

    /// Returns the y half way down.
    pub(crate) fn middle(self) -> u64
        ensures { result ≡ middle_of self }
    {
        self.top() + u64::from(self.height) / 2
    }
}

/// Returns the height of a box with these `ports`.
fn height_of(ports: PortCounts) -> u16
    requires { (ports.inputs ≤ MAX_PORTS) × (ports.outputs ≤ MAX_PORTS) }
    ensures { result ≡ PORT * max (max ports.inputs ports.outputs) 1 + MARGIN }
{
    (PORT * ports.inputs.max(ports.outputs).max(1) as u64 + MARGIN) as u16
}

/// Returns the height that all boxes of `depth` take, each with the gap below it.
fn stack_height(places: &[BoxPlace], depth: u32) -> u64
    requires { length places.now ≤ MAX_ACTORS }
    ensures is { result ≡ stack_height places.now depth }
    ensures small { result ≤ 100000 * length places.now }
{
    let mut room = 0;
    for place in places {
        if place.depth == depth {
            room += u64::from(place.height) + GAP;
        }
    }
    room
}

/// Returns the places of the boxes. The highest boxes begin at y `top`.
fn places_of(
    alloc: Global,
    design: &Design,
    depths: &[u32],
    top: u64,
) -> Result<Vec<BoxPlace>, AllocError>
    requires all { length depths.now ≡ length design.now.net.nodes }
    requires few { length design.now.net.nodes ≤ MAX_ACTORS }
    requires top { top ≤ 100000 }
    ensures { IfOk result (λ v. ArePlaces design.now depths.now top v.items) }
{
    let mut places = Vec::new(alloc);
    for actor in 0..design.net().len() {
        let depth = depths[actor];
        let y = top + stack_height(places.as_slice(), depth);
        let height = height_of(ports_of(design, actor));
        places.push(BoxPlace {
            depth,
            y: y as u32,
            height,
        })?;
    }
    Ok(places)
}

/// The numbers of lanes that are taken above the boxes and below them.
#[derive(Clone, Copy)]
struct Lanes {
    above: u32,
    below: u32,
}

/// Returns the route from depth `from` to depth `to` when `lanes` are taken, and the lanes that are taken after it.
fn route_between(from: u32, to: u32, lanes: Lanes) -> (Route, Lanes)
    requires { (lanes.above < MAX_LINKS) × (lanes.below < MAX_LINKS) }
    ensures is { IsRoute from to result.0 }
    ensures within { IsWithin result.1.above result.1.below result.0 }
    ensures above { (lanes.above ≤ result.1.above) × (result.1.above ≤ lanes.above + 1) }
    ensures below { (lanes.below ≤ result.1.below) × (result.1.below ≤ lanes.below + 1) }
{
    if to <= from {
        let below = lanes.below + 1;
        (Route::Below(lanes.below), Lanes { below, ..lanes })
    } else if to - from == 1 {
        (Route::Across, lanes)
    } else {
        let above = lanes.above + 1;
        (Route::Above(lanes.above), Lanes { above, ..lanes })
    }
}

/// Returns the routes of all links, and the lanes that they take.
fn routes_of(
    alloc: Global,
    design: &Design,
    depths: &[u32],
) -> Result<(Vec<Route>, Lanes), AllocError>
    requires all { length depths.now ≡ length design.now.net.nodes }
    requires few { length design.now.net.wires ≤ MAX_LINKS }
    ensures is { IfOk result (λ r. AreRoutes design.now depths.now r.1.above r.1.below r.0.items) }
    ensures few { IfOk result (λ r. (r.1.above ≤ MAX_LINKS) × (r.1.below ≤ MAX_LINKS)) }
{
    let mut routes = Vec::new(alloc);
    let mut lanes = Lanes { above: 0, below: 0 };
    let net = design.net();
    for link in 0..net.channels() {
        let ends = net.link(link);
        let (route, taken) = route_between(depths[ends.from.0], depths[ends.to.0], lanes);
        routes.push(route)?;
        lanes = taken;
    }
    Ok((routes, lanes))
}

/// Returns the layout of `design`, whose period fires its actors in `order`.
pub(crate) fn layout_of(
    alloc: Global,
    design: &Design,
    order: &[usize],
) -> Result<Layout, AllocError>
    requires known { (i : ℕ) → i < length order.now → slice_index order.now i < (rates_of design.now).actors }
    requires short { length order.now ≤ MAX_PERIOD }
    ensures is { IfOk result (λ l. IsLayout design.now order.now l.places.items l.above l.below l.routes.items) }
    ensures few { IfOk result (λ l. (l.above ≤ MAX_LINKS) × (l.below ≤ MAX_LINKS)) }
{
    let graph = design.net().graph();
    let depths = depths(alloc, graph, order)?;
    let (routes, lanes) = routes_of(alloc, design, depths.as_slice())?;
    let top = HEAD + LANE * u64::from(lanes.above) + GAP;
    let places = places_of(alloc, design, depths.as_slice(), top)?;
    Ok(Layout {
        places,
        routes,
        above: lanes.above,
        below: lanes.below,
    })
}

impl Layout {
    /// Returns the y of the lowest box's bottom, or 0 if there are no boxes.
    #[tactic(auto, using(crate::proofs::Lowest::greatest_take))]
    pub(crate) fn bottom(&self) -> u64
        ensures is { result ≡ lowest self.now.places.items }
        ensures below { (a : ℕ) → a < length self.now.places.items →
            bottom_of (place self.now.places.items a) ≤ result }
        ensures small { result < 1000000000000 }
    {
        let mut most = 0u64;
        for place in &self.places {
            most = most.max(place.bottom());
        }
        most
    }

    /// Returns the x of the rightmost box's right side, or 0 if there are no boxes.
    #[tactic(auto, using(crate::proofs::Lowest::greatest_take))]
    pub(crate) fn right(&self) -> u64
        ensures is { result ≡ rightmost self.now.places.items }
        ensures within { (a : ℕ) → a < length self.now.places.items →
            right_of (place self.now.places.items a) ≤ result }
        ensures small { result < 2000000000000 }
    {
        let mut most = 0u64;
        for place in &self.places {
            most = most.max(place.right());
        }
        most
    }

    /// Returns the y of `lane` below the boxes.
    pub(crate) fn lane_below(&self, lane: u32) -> u64
        ensures is { result ≡ lane_below self.now.places.items lane }
        ensures below { (a : ℕ) → a < length self.now.places.items →
            bottom_of (place self.now.places.items a) < result }
        ensures small { result < 2000000000000 }
    {
        self.bottom() + GAP + LANE * u64::from(lane)
    }
}

/// Returns the y of `lane` above the boxes.
pub(crate) fn lane_above(lane: u32) -> u64
    ensures { result ≡ lane_above lane }
{
    HEAD + LANE * u64::from(lane)
}
