//! A design as boxes and arrows, and the table of its schedule against time, as one SVG; its graph for Graphviz.
//!
//! It depends on `sdf_plan`, which schedules a design, and on `sdf_analyze`, which computes the starts of the bars.
//! `sdf_options` has the options, `sdf_faults` the faults of a schedule, `sdf_file` the names of actors, and
//! `sdf_limits` the limits. Designs, tables and times are values of `sdf_kit`, `sdf_actor`, `sdf_prec`, `sdf_sched`,
//! `sdf_graph` and `sdf_times`. Begin at `page`, then `layout` and `bars`, whose lengths are whole pixels and whole
//! units of time; then `graphviz`. `specs/Depths.antt`, `specs/Layouts.antt`, `specs/Bars.antt` and
//! `specs/Drawings.antt` define the drawing. `specs/Boxes.antt`, `specs/Arrows.antt`, `specs/Charts.antt` and
//! `specs/Pictures.antt` define its text, and `IsPicture` is what `svg` promises. `specs/Graphviz.antt` defines the
//! text of `dot`.
#![tactic(auto)]

mod arrows;
mod bars;
mod boxes;
mod chart;
mod depths;
pub mod graphviz;
mod layout;
pub mod page;
mod ports;
mod texts;

pub use graphviz::dot;
pub use page::svg;
