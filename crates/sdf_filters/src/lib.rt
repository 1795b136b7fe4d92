//! Filters made by formula: the integer taps of a low-pass, high-pass or band-pass, and designs that convert between
//! two rates.
//!
//! It depends on `sdf_limits` and `thiserror` alone. Begin at `filter_spec` (a filter in plain numbers), `filter` (its
//! taps) and `texts` (what `sdfw fir` prints). These use `lowpass`, `differences` (high-passes and band-passes),
//! `coefficients` (the text of taps) and `settling`. `settling` makes the sum of each phase exact by the steps of
//! `phases`, in the `order` of taps. `split` splits a conversion into stages. `converter` makes their design for `sdfw
//! resample --fast`, with the graph file from `graph` and `ends`, and the delay from `delay`.
//!
//! `wide_converter` makes the design for `sdfw resample`. Its filters are `fitted`. Their taps are made `whole`, with
//! `zeros` in front, and split into two `parts`. `wide_graph` and `wide_links` have its graph file. `sinc`, `fitted`,
//! `cost`, `wide_cost` and `measure` compute with floats, and no clause says anything of their values. The definitions
//! are in `specs/FilterSpecs.antt`, `specs/Phases.antt` (the sums of phases), `specs/Stages.antt`,
//! `specs/Converters.antt`, `specs/Wide.antt` and `specs/WideConverters.antt`.
#![tactic(auto)]

mod coefficients;
mod converter;
mod cost;
mod delay;
mod differences;
mod ends;
mod fault;
mod filter;
mod filter_spec;
mod fitted;
mod graph;
mod lowpass;
mod measure;
mod order;
mod parts;
mod phases;
mod ratio;
mod settling;
mod sinc;
mod split;
mod stage;
mod texts;
mod whole;
mod wide_converter;
mod wide_cost;
mod wide_graph;
mod wide_links;
mod zeros;

pub use coefficients::coefficient_text;
pub use converter::{ConverterTexts, converter_texts};
pub use fault::FilterFault;
pub use filter::taps_of;
pub use filter_spec::{Band, FilterSpec};
pub use lowpass::{Lowpass, MAX_ATTENUATION};
pub use measure::Measured;
pub use settling::settle;
pub use split::stages;
pub use stage::{Stage, StageFile};
pub use texts::{FilterTexts, filter_texts};
pub use wide_converter::{USUAL_ATTENUATION, USUAL_PASS, WideSpec, wide_converter_texts};
