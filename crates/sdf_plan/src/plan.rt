//! Plans: ways to run a design.

ghost use Rattle.std.specs.Prelude.{◌≡◌, ℤ, IfSome, IfNone, None};
ghost use Rattle.sdf_graph.specs.Rates.{rates};
ghost use Rattle.sdf_actor.specs.Graphs.{graph_of};
ghost use Rattle.sdf_actor.specs.Nets.{Netlist};
ghost use Rattle.sdf_prec.specs.BlockTables.{IsBlockTableOf};
ghost use Rattle.sdf_kit.specs.declared.kit.Kit.{Kit};
ghost use Rattle.sdf_kit.specs.Kit.{kit_steps};
ghost use Rattle.sdf_plan.specs.declared.plan.Execution.TheVariants.{One, Parts};
ghost use Rattle.sdf_plan.specs.Executions.{plan_by, HasBlockTable};
ghost use Rattle.sdf_plan.specs.ParallelPlans.{one_thread};
ghost use Rattle.sdf_plan.specs.Plans.{Suits};

use sdf_options::{Options, Runner};
use sdf_prec::BlockTable;
use sdf_sched::Period;
use std::marker::Model;

/// An execution, or way to run a design: the runner, and what it follows.
#[derive(Drop)]
pub enum Execution {
    /// On one thread, by the order of `period`. A block has `blocking` periods.
    One {
        period: Period,
        blocking: u32,
    },
    /// In parts of the sound, up to `parts` of them in parallel, each as `One` runs the whole sound.
    Parts {
        period: Period,
        blocking: u32,
        parts: u32,
    },
    /// By the rows of a table (barrier-synchronous).
    Rows(BlockTable),
    /// Over rings (self-timed), by a worker for each processor of a table. The patience of the plan is the spin limit:
    /// a worker repeats at most this many tests in a round.
    Rings(BlockTable),
}

/// A way to run a design that passed the tests of `plan`.
pub struct Plan {
    way: Execution,
    patience: u32,
}

impl Model for Plan {
    ghost use Rattle.sdf_plan.specs.Executions.{plan_by};
    ghost use Rattle.sdf_plan.specs.Plans.{PlanValue};

    ghost Value = { PlanValue };

    ghost view = { λ p. plan_by p.way p.patience };
}

/// Not derived: a derived drop is expanded, with each variant, wherever a plan may be dropped.
impl Drop for Plan {
    fn drop(self) {
        let Plan {
            way: _,
            patience: _,
        } = self;
    }
}

impl Plan {
    /// Makes the plan that runs a design by `way`, where the options ask for `patience`.
    pub(crate) fn new(way: Execution, patience: u32) -> Plan
        ensures { result ≡ plan_by way patience }
    {
        Plan { way, patience }
    }

    /// Makes the plan that runs a design on one thread by the order of `period`, in blocks of one period.
    pub(crate) fn on_one_thread(period: Period) -> Plan
        ensures { result ≡ plan_by (One period 1) one_thread.patience }
    {
        let way = Execution::One {
            period,
            blocking: 1,
        };
        Plan::new(way, Options::DEFAULT.patience)
    }

    /// Makes the plan that runs up to `parts` parts of the sound in parallel, each as `on_one_thread` runs the whole
    /// sound.
    pub(crate) fn in_parts(period: Period, parts: u32) -> Plan
        ensures { result ≡ plan_by (Parts period 1 parts) one_thread.patience }
    {
        let way = Execution::Parts {
            period,
            blocking: 1,
            parts,
        };
        Plan::new(way, Options::DEFAULT.patience)
    }

    /// Returns the way in which it runs a design.
    pub fn way(&self) -> &Execution
        ensures { plan_by result.now self.now.patience ≡ self.now }
    {
        &self.way
    }

    /// Returns the number of periods in a block.
    pub fn blocking(&self) -> u32
        ensures { result ≡ self.now.blocking }
    {
        match &self.way {
            Execution::One { blocking, .. } | Execution::Parts { blocking, .. } => *blocking,
            Execution::Rows(table) | Execution::Rings(table) => table.blocking,
        }
    }

    /// Returns the runner.
    pub fn runner(&self) -> Runner
        ensures { result ≡ self.now.runner }
    {
        match &self.way {
            Execution::One { .. } | Execution::Parts { .. } => Runner::One,
            Execution::Rows(_) => Runner::Rows,
            Execution::Rings(_) => Runner::Rings,
        }
    }

    /// Returns the spin limit that the options ask for. Only the runner over rings uses it.
    pub fn patience(&self) -> u32
        ensures { result ≡ self.now.patience }
    {
        self.patience
    }

    /// Returns the firings of one period, in their order.
    pub fn period(&self) -> &Period
        ensures { result.now ≡ self.now.period }
    {
        match &self.way {
            Execution::One { period, .. } | Execution::Parts { period, .. } => period,
            Execution::Rows(table) | Execution::Rings(table) => &table.period,
        }
    }

    /// Returns the table of a block, if the runner has workers that follow one.
    pub fn table(&self) -> Option<&BlockTable>
        ensures some { IfSome result (λ t. HasBlockTable self.now t.now) }
        ensures none { IfNone result (self.now.table ≡ None) }
        ensures fits { (n : Netlist Kit ℤ) → Suits n self.now →
            IfSome result (λ t. IsBlockTableOf (rates (graph_of kit_steps n)) t.now) }
    {
        match &self.way {
            Execution::One { .. } | Execution::Parts { .. } => None,
            Execution::Rows(table) | Execution::Rings(table) => Some(table),
        }
    }
}
