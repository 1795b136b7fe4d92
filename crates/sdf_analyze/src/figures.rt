//! The figures of a table: its times, its work and what its channels hold.

ghost use Rattle.std.specs.Prelude.{◌≡◌, ◌<◌, length, slice_index, MatchResult, IfOk};
ghost use Rattle.sdf_sched.specs.Period.{IsPeriodOf};
ghost use Rattle.sdf_prec.specs.Blocks.{IsWorkers, IsShort};
ghost use Rattle.sdf_prec.specs.Tables.{IsTable};
ghost use Rattle.sdf_prec.specs.declared.fault.PrecFault.TheVariants.{OutOfMemory};
ghost use Rattle.sdf_prec.specs.declared.firing.Firing.{Firing};
ghost use Rattle.sdf_times.specs.Times.{HasStart, start_in, IsSpan};
ghost use Rattle.sdf_plan.specs.Placements.{rates_of, firings_of};
ghost use Rattle.sdf_analyze.specs.Figures.{AreFiguresOf};
ghost use Rattle.sdf_analyze.specs.Texts.{hundredths};

use crate::spans::block_span;
use sdf_file::Design;
use sdf_limits::{MAX_ACTORS, MAX_BLOCK, MAX_COST};
use sdf_options::Options;
use sdf_plan::costs::firing_costs;
use sdf_prec::{Firing, PrecFault, Table};
use sdf_sched::Period;
use sdf_times::{Times, bound, held, work};
use std::alloc::Global;
use std::marker::Model;

/// An upper bound on the work of a block, in units of cost.
const MAX_WORK: u64 = MAX_ACTORS as u64 * MAX_BLOCK as u64 * MAX_COST as u64;

/// The start and end times of a table's firings, the work, span and bound of its block, and what its channels hold. No
/// table of the block for these workers is shorter than the bound.
#[derive(Drop)]
pub struct Figures {
    times: Times,
    work: u64,
    span: u64,
    bound: u64,
    held: u64,
}

impl Model for Figures {
    ghost use Rattle.std.specs.Prelude.{◌≤◌};
    ghost use Rattle.sdf_analyze.specs.Figures.{FiguresValue};
    ghost use Rattle.sdf_analyze.specs.declared.figures.TheConstants.{MAX_WORK};

    ghost Value = { FiguresValue };

    ghost view = { λ f. record {
      starts = f.times.starts;
      makespan = f.times.makespan;
      work = f.work;
      span = f.span;
      bound = f.bound;
      loads = f.times.loads;
      held = f.held;
    } };

    ghost invariant = { λ f. f.work ≤ MAX_WORK };
}

impl Figures {
    /// Returns the figures of `table`, which schedules a block of `period` as `options` say. The blocking factor may be
    /// above 64. The only fault is that memory was refused.
    pub fn of(
        alloc: Global,
        design: &Design,
        options: &Options,
        period: &Period,
        table: &Table,
    ) -> Result<Figures, PrecFault>
        requires period { IsPeriodOf (rates_of design.now) period.now }
        requires workers { IsWorkers options.now.workers }
        requires short { IsShort options.now.blocking period.now.repetitions }
        requires table { IsTable (rates_of design.now) (firings_of options.now.blocking period.now)
            options.now.workers table.now }
        ensures { MatchResult result
            (AreFiguresOf design.now options.now.blocking options.now.workers period.now table.now)
            (λ fault. fault ≡ OutOfMemory) }
    {
        let span = block_span(alloc, design, options.blocking, period)?;
        Figures::with_span(alloc, design, options, period, table, span)
    }

    /// Returns the figures of `table`, as `of` does, but with a `span` of its block that is already known.
    pub(crate) fn with_span(
        alloc: Global,
        design: &Design,
        options: &Options,
        period: &Period,
        table: &Table,
        span: u64,
    ) -> Result<Figures, PrecFault>
        requires period { IsPeriodOf (rates_of design.now) period.now }
        requires workers { IsWorkers options.now.workers }
        requires short { IsShort options.now.blocking period.now.repetitions }
        requires table { IsTable (rates_of design.now) (firings_of options.now.blocking period.now)
            options.now.workers table.now }
        requires span { IsSpan (rates_of design.now) (firings_of options.now.blocking period.now)
            (slice_index design.now.costs) span }
        ensures { MatchResult result
            (AreFiguresOf design.now options.now.blocking options.now.workers period.now table.now)
            (λ fault. fault ≡ OutOfMemory) }
    {
        let graph = design.net().graph();
        let costs = firing_costs(alloc, design)?;
        let times = Times::of(alloc, graph, table, options.workers, &costs)?;
        let work = work(period.repetitions(), options.blocking, &costs);
        Ok(Figures {
            times,
            work,
            span,
            bound: bound(span, work, options.workers),
            held: held(graph, table),
        })
    }

    /// Returns the time at which `firing` starts.
    pub fn start(&self, firing: Firing) -> u64
        requires { HasStart self.now.starts firing }
        ensures { result ≡ start_in self.now.starts firing }
    {
        self.times.start(firing)
    }

    /// Returns the time at which the last firing ends.
    pub fn makespan(&self) -> u64
        ensures { result ≡ self.now.makespan }
    {
        self.times.makespan()
    }

    /// Returns the cost of all firings of the block together.
    pub fn work(&self) -> u64
        ensures { result ≡ self.now.work }
    {
        self.work
    }

    /// Returns the work over the makespan in hundredths, rounded down, or 0 if the makespan is 0.
    pub fn speedup(&self) -> u64
        ensures { result ≡ hundredths self.now.work self.now.makespan }
    {
        (self.work * 100)
            .checked_div(self.times.makespan())
            .unwrap_or(0)
    }

    /// Returns the cost of the costliest chain of the block's firings.
    pub fn span(&self) -> u64
        ensures { result ≡ self.now.span }
    {
        self.span
    }

    /// Returns the least time in which the costliest chain can end and the workers can do the work.
    pub fn bound(&self) -> u64
        ensures { result ≡ self.now.bound }
    {
        self.bound
    }

    /// Returns the cost of all firings in `column` together.
    pub fn load(&self, column: usize) -> u64
        requires { column < length self.now.loads }
        ensures { result ≡ slice_index self.now.loads column }
    {
        self.times.load(column)
    }

    /// Returns the sum of the channels' capacities, in samples.
    pub fn held(&self) -> u64
        ensures { result ≡ self.now.held }
    {
        self.held
    }
}
