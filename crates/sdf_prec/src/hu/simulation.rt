//! The rows of Hu's rule, made one after another in simulated time, at the times at which a column's firing ends.

ghost use Rattle.std.specs.Prelude.{◌≡◌, ℕ, ◌<◌, List, length, sum, slice_index, IfOk, Some};
ghost use Rattle.sdf_graph.specs.Rates.{rates, IsSound};
ghost use Rattle.sdf_graph.specs.Sequences.{IsPass};
ghost use Rattle.sdf_prec.specs.Tables.{IsValid};
ghost use Rattle.sdf_prec.specs.Numbers.{number};
ghost use Rattle.sdf_prec.specs.TimedRows.{Timed, AreHuRows};
ghost use Rattle.sdf_prec.specs.Floor.{AreStarted, IsNextEnd};
ghost use Rattle.sdf_prec.specs.Simulations.{AreInputsFor, IsSimulation, idle, IsDueTo, IsDueAfter, IsDoneAfter};
ghost use Rattle.sdf_prec.specs.Simulations.{IsRowFor};
ghost use Rattle.sdf_prec.specs.Simulations.{IsQueued, IsQueuedBut};

use crate::costs::Costs;
use crate::firing::Firing;
use crate::hu::filling::fill;
use crate::hu::floor::{end_firings, next_end, start};
use crate::hu::homing::place;
use crate::hu::marked::Marks;
use crate::hu::queue::{add_ready, remove_started};
use crate::levels::level::Levels;
use crate::table::rows::Rows;
use crate::table::tidy::has_firing;
use sdf_graph::{Counts, Graph};
use std::alloc::{AllocError, Global};
use std::marker::Model;

/// The inputs of Hu's rule: how often each actor fires in the block, the levels and the costs of firings, the cost of
/// all firings of each actor (`weights`), and whether actors have homes.
#[derive(Drop)]
pub(crate) struct HuInputs<'a> {
    pub(crate) firings: &'a [u32],
    pub(crate) levels: &'a Levels,
    pub(crate) costs: &'a Costs,
    pub(crate) weights: &'a [u64],
    pub(crate) homed: bool,
}

/// The state at a time: the counts of ended and of started firings, the actor that each column fired last, when that
/// firing ends, and the homes. Ready firings are in a queue, and actors that may have become ready are marked.
#[derive(Drop)]
struct Simulation<'a> {
    time: u64,
    counts: Counts<'a>,
    started: Vec<u32>,
    whose: Vec<usize>,
    until: Vec<u64>,
    homes: Vec<Option<usize>>,
    queue: Vec<Firing>,
    marks: Marks,
}

impl<'a> Model for Simulation<'a> {
    ghost use Rattle.sdf_prec.specs.Simulations.{SimulationValue, IsSimulation};

    ghost Value = { SimulationValue };

    ghost view = { λ c. record {
      time = c.time;
      counts = c.counts;
      started = c.started.items;
      whose = c.whose.items;
      until = c.until.items;
      homes = c.homes.items;
      queue = c.queue.items;
      marks = c.marks;
    } };

    ghost invariant = { λ c. IsSimulation (record {
      time = c.time;
      counts = c.counts;
      started = c.started.items;
      whose = c.whose.items;
      until = c.until.items;
      homes = c.homes.items;
      queue = c.queue.items;
      marks = c.marks;
    }) };
}

impl<'a> Simulation<'a> {
    /// Returns the state at time 0, with idle columns.
    fn new(alloc: Global, graph: &'a Graph, width: usize) -> Result<Simulation<'a>, AllocError>
        ensures { IfOk result (λ state. state ≡ idle graph.now width) }
    {
        let actors = graph.actors();
        Ok(Simulation {
            time: 0,
            counts: Counts::new(alloc, graph)?,
            started: vec![in alloc; 0u32; actors]?,
            whose: vec![in alloc; 0; width]?,
            until: vec![in alloc; 0u64; width]?,
            homes: vec![in alloc; None; actors]?,
            queue: Vec::new(alloc),
            marks: Marks::of_all(alloc, actors)?,
        })
    }

    /// Puts the firings that have become ready into the queue.
    fn renew_queue(&mut self, inputs: &HuInputs) -> Result<(), AllocError>
        requires inputs { AreInputsFor self.old.counts.graph inputs.now }
        requires queue { IsQueuedBut inputs.now self.old }
        ensures others { self.new ≡ record self.old { queue = self.new.queue; marks = self.new.marks } }
        ensures queue { IfOk result (λ _. IsQueued inputs.now self.new) }
    {
        add_ready(
            &mut self.queue,
            &self.counts,
            &self.started,
            inputs.firings,
            inputs.levels,
            &mut self.marks,
        )
    }

    /// Makes `cells` the row of the current time, which may be empty. Actors whose first firing is in it get their
    /// homes.
    fn next_cells(
        &mut self,
        inputs: &HuInputs,
        cells: &mut Vec<Option<Firing>>,
    ) -> Result<(), AllocError>
        requires inputs { AreInputsFor self.old.counts.graph inputs.now }
        requires queue { IsQueued inputs.now self.old }
        ensures others { self.new ≡ record self.old { homes = self.new.homes } }
        ensures sound { IsSound (rates self.old.counts.graph) }
        ensures row { IfOk result (λ _. (past : List Timed) → IsDueTo inputs.now self.old past →
            IsRowFor inputs.now self.new past cells.new.items) }
    {
        if inputs.homed {
            place(
                &self.queue,
                &self.until,
                self.time,
                inputs.weights,
                &mut self.homes,
                cells,
            )?;
            Ok(())
        } else {
            fill(&self.queue, &self.until, self.time, cells)?;
            Ok(())
        }
    }

    /// Starts the firings of the row `cells`, which leave the queue.
    fn start(&mut self, inputs: &HuInputs, cells: &[Option<Firing>])
        requires inputs { AreInputsFor self.old.counts.graph inputs.now }
        requires row { (past : List Timed) × IsRowFor inputs.now self.old past cells.now }
        requires queue { IsQueued inputs.now self.old }
        ensures others { self.new ≡ record self.old {
          started = self.new.started;
          whose = self.new.whose;
          until = self.new.until;
          queue = self.new.queue;
        } }
        ensures columns { length self.new.until ≡ length self.old.until }
        ensures started { AreStarted (slice_index inputs.now.costs.now) self.old.time (length cells.now) cells.now
            (slice_index self.old.started) (slice_index self.old.whose) (slice_index self.old.until)
            (slice_index self.new.started) (slice_index self.new.whose) (slice_index self.new.until) }
        ensures queue { IsQueued inputs.now self.new }
    {
        start(
            cells,
            self.time,
            inputs.costs,
            &mut self.started,
            &mut self.whose,
            &mut self.until,
        );
        remove_started(&mut self.queue, &self.started);
    }

    /// Makes the row of the current time in `cells`, and appends it to `rows` if it has a firing.
    fn add_row(
        &mut self,
        inputs: &HuInputs,
        rows: &mut Rows,
        cells: &mut Vec<Option<Firing>>,
    ) -> Result<(), AllocError>
        requires inputs { AreInputsFor self.old.counts.graph inputs.now }
        requires wide { rows.old.width ≡ length self.old.until }
        requires due { IsDueAfter inputs.now self.old rows.old.rows }
        requires queue { IsQueuedBut inputs.now self.old }
        ensures counts { self.new.counts ≡ self.old.counts }
        ensures columns { length self.new.until ≡ length self.old.until }
        ensures wide { rows.new.width ≡ rows.old.width }
        ensures done { IfOk result (λ _. IsDoneAfter inputs.now self.new rows.new.rows) }
        ensures queue { IfOk result (λ _. IsQueued inputs.now self.new) }
    {
        self.renew_queue(inputs)?;
        self.next_cells(inputs, cells)?;
        if has_firing(cells) {
            self.start(inputs, cells);
            rows.push(cells)?;
        }
        Ok(())
    }

    /// Returns the earliest later time at which a column's firing ends.
    fn next_end(&self) -> Option<u64>
        ensures state { IsSimulation self.now }
        ensures next { IsNextEnd self.now.until self.now.time (length self.now.until) result }
    {
        next_end(&self.until, self.time)
    }

    /// Goes on to time `next`, the next time at which a column's firing ends, and adds its row.
    fn advance(
        &mut self,
        graph: &Graph,
        inputs: &HuInputs,
        next: u64,
        rows: &mut Rows,
        cells: &mut Vec<Option<Firing>>,
    ) -> Result<(), AllocError>
        requires graph { self.old.counts.graph ≡ graph.now }
        requires inputs { AreInputsFor self.old.counts.graph inputs.now }
        requires next { IsNextEnd self.old.until self.old.time (length self.old.until) (Some next) }
        requires wide { rows.old.width ≡ length self.old.until }
        requires done { IsDoneAfter inputs.now self.old rows.old.rows }
        requires queue { IsQueued inputs.now self.old }
        ensures graph { self.new.counts.graph ≡ self.old.counts.graph }
        ensures columns { length self.new.until ≡ length self.old.until }
        ensures wide { rows.new.width ≡ rows.old.width }
        ensures more { IfOk result (λ _. sum self.old.counts.fired < sum self.new.counts.fired) }
        ensures done { IfOk result (λ _. IsDoneAfter inputs.now self.new rows.new.rows) }
        ensures queue { IfOk result (λ _. IsQueued inputs.now self.new) }
    {
        end_firings(
            next,
            graph,
            &self.whose,
            &self.until,
            &mut self.counts,
            &mut self.marks,
        )?;
        self.time = next;
        self.add_row(inputs, rows, cells)
    }
}

/// Returns the rows of Hu's rule with costs, until each firing of the block is in one.
pub(crate) fn timed_rows(
    alloc: Global,
    graph: &Graph,
    inputs: &HuInputs,
    width: usize,
) -> Result<Rows, AllocError>
    requires inputs { AreInputsFor graph.now inputs.now }
    requires width { 0 < width }
    requires pass { (w : List ℕ) × IsPass (rates graph.now) (slice_index inputs.now.firings.now) w }
    ensures rows { IfOk result (λ rows. AreHuRows (rates graph.now) (slice_index inputs.now.firings.now)
        (slice_index inputs.now.costs.now) (number inputs.now.levels.now) width inputs.now.homed rows.rows) }
    ensures valid { IfOk result (λ rows. IsValid (rates graph.now) (slice_index inputs.now.firings.now) rows.rows) }
{
    let mut state = Simulation::new(alloc, graph, width)?;
    let mut rows = Rows::new(alloc, width);
    let mut cells = Vec::new(alloc);
    state.add_row(inputs, &mut rows, &mut cells)?;
    while let Some(next) = state.next_end() {
        state.advance(graph, inputs, next, &mut rows, &mut cells)?;
    }
    Ok(rows)
}
