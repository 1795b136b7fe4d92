//! A search for a certificate of the period. Nothing is proved of what it finds, only that it ends: `is_certificate`
//! decides whether it is believed.
//!
//! It begins with the greatest load, which the firings of its column take in each block. Sweeps over the rows then find
//! longest paths among the firings of the blocks: the earliest starts at this period (Reiter 1968). If a sweep delays
//! no firing, these starts are the schedule. A cycle among the firings that set each other's starts takes longer than
//! the period: it is the next candidate.
//!
//! The folder `search` has the events with their starts, the counters of the channels, the sweeps and the candidates.

ghost use Rattle.std.specs.Prelude.{◌≡◌, ℕ, ◌≤◌, ◌<◌, length, sum, slice_index, IfOk, IfSome, Some};
ghost use Rattle.sdf_limits.specs.declared.TheConstants.{MAX_BLOCK};
ghost use Rattle.sdf_prec.specs.Blocks.{block, IsShort};
ghost use Rattle.sdf_prec.specs.Costs.{AreCosts};
ghost use Rattle.sdf_prec.specs.Numbers.{InBlock};
ghost use Rattle.sdf_prec.specs.Tables.{row, cell};
ghost use Rattle.sdf_prec.specs.declared.firing.Firing.{Firing};
ghost use Rattle.sdf_times.specs.Checks.{IsBlockRun, plan_of};
ghost use Rattle.sdf_times.specs.Certificates.{IsCertificate, IsPeriodFor};

mod candidate;
mod counter;
mod cycle;
mod events;
mod setup;
mod sweep;

use self::candidate::{Candidate, most_loaded};
use self::setup::new_sweep;
use self::sweep::Sweep;
use crate::certificate::{Certificate, is_certificate};
use crate::loads::loads;
use sdf_graph::Graph;
use sdf_prec::{Costs, Table};
use std::alloc::{AllocError, Global};

/// The most sweeps before the search gives up.
pub const MAX_SWEEPS: u32 = 1000;

impl Sweep {
    /// Sweeps until no firing is delayed at the period of a candidate, and returns the candidate with these starts. The
    /// first candidate is `first`. It returns nothing after `MAX_SWEEPS` sweeps.
    fn certificate(
        &mut self,
        alloc: Global,
        graph: &Graph,
        table: &Table,
        costs: &Costs,
        first: Candidate,
    ) -> Result<Option<Certificate>, AllocError>
        requires graph { graph.now.actors ≡ length self.old.events.firings }
        requires channels { length graph.now.channels ≡ self.old.channels }
        requires wide { (i : ℕ) → i < length table.now.rows → length (row table.now.rows i) ≡ self.old.columns }
        requires cells { (i j : ℕ) (f : Firing) → cell table.now.rows i j ≡ Some f → InBlock self.old.events.firings f }
        requires costs { AreCosts graph.now.actors costs.now }
    {
        let mut candidate = first;
        self.begin(costs, candidate.time, candidate.blocks);
        let mut marks = vec![in alloc; 0usize; self.events.len()]?;
        for _ in 0..MAX_SWEEPS {
            if !self.run(graph, table) {
                return Ok(Some(Certificate {
                    time: candidate.time,
                    blocks: candidate.blocks,
                    starts: self.events.starts(alloc)?,
                    steps: candidate.steps,
                }));
            }
            if let Some(at) = self.events.cycle(&mut marks) {
                candidate = self.events.candidate(alloc, costs, at)?;
                self.begin(costs, candidate.time, candidate.blocks);
            }
        }
        Ok(None)
    }
}

/// Searches for a certificate, and returns what it takes for one.
fn search_certificate(
    alloc: Global,
    graph: &Graph,
    table: &Table,
    costs: &Costs,
    reps: &[u32],
    blocking: u32,
) -> Result<Option<Certificate>, AllocError>
    requires run { (width : ℕ) × IsBlockRun graph.now reps.now blocking width table.now costs.now }
{
    let loads = loads(alloc, table, costs, table.columns())?;
    let mut sweep = new_sweep(alloc, graph, table, reps, blocking)?;
    let first = Candidate::of_column(alloc, table, costs, most_loaded(&loads))?;
    sweep.certificate(alloc, graph, table, costs, first)
}

/// Finds the period of the self-timed runs of a table of blocks of `blocking` periods in which the actors fire `reps`
/// times each, with what shows it. It returns nothing if it finds none within `MAX_SWEEPS` sweeps.
pub fn period(
    alloc: Global,
    graph: &Graph,
    table: &Table,
    costs: &Costs,
    reps: &[u32],
    blocking: u32,
) -> Result<Option<Certificate>, AllocError>
    requires run { (width : ℕ) × IsBlockRun graph.now reps.now blocking width table.now costs.now }
    ensures certificate { IfOk result (λ found. IfSome found (IsCertificate
        (plan_of graph.now (block blocking reps.now) table.now costs.now) (block blocking reps.now))) }
    ensures period { IfOk result (λ found. IfSome found (λ c. IsPeriodFor
        (plan_of graph.now (block blocking reps.now) table.now costs.now) c.time c.blocks)) }
{
    graph.channels();
    match search_certificate(alloc, graph, table, costs, reps, blocking)? {
        Some(certificate) => {
            if is_certificate(graph, table, costs, reps, blocking, &certificate) {
                Ok(Some(certificate))
            } else {
                Ok(None)
            }
        }
        None => Ok(None),
    }
}
