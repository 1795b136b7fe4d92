//! Certificates of a period, and the test of them.

ghost use Rattle.std.specs.Prelude.{◌≡◌, ℕ, ◌↔◌, IsTrue};
ghost use Rattle.sdf_prec.specs.Blocks.{block};
ghost use Rattle.sdf_times.specs.Checks.{plan_of, IsBlockRun};
ghost use Rattle.sdf_times.specs.Certificates.{IsCertificate};

use crate::round::is_round;
use crate::schedules::is_periodic;
use crate::starts::Starts;
use crate::step::Step;
use sdf_graph::Graph;
use sdf_prec::{Costs, Table};
use std::marker::Model;

/// A period, and what shows it: a schedule in which each block starts exactly a period after the one before, and a
/// chain of firings that comes round and takes a period for each block. No self-timed run is later than the schedule,
/// and none is sooner than the chain.
#[derive(Drop)]
pub struct Certificate {
    pub(crate) time: u64,
    pub(crate) blocks: u64,
    pub(crate) starts: Vec<Starts>,
    pub(crate) steps: Vec<Step>,
}

impl Model for Certificate {
    ghost use Rattle.sdf_times.specs.Certificates.{CertificateValue};

    ghost Value = { CertificateValue };

    ghost view = { λ c. record {
      time = c.time;
      blocks = c.blocks;
      starts = c.starts.items;
      steps = c.steps.items;
    } };
}

impl Certificate {
    /// Returns what `blocks` blocks take in the long run.
    pub fn time(&self) -> u64
        ensures { result ≡ self.now.time }
    {
        self.time
    }

    /// Returns for how many blocks `time` is given.
    pub fn blocks(&self) -> u64
        ensures { result ≡ self.now.blocks }
    {
        self.blocks
    }

    /// Returns the chain of firings. Each waits for the one before, and the first for the last.
    pub fn steps(&self) -> &[Step]
        ensures { result.now ≡ self.now.steps }
    {
        &self.steps
    }
}

/// Checks a certificate for the table of blocks of `j` periods in which the actors fire `reps` times each. It knows
/// nothing of how the certificate was found. It takes time linear in the cells, the links at the firings and the steps.
pub fn is_certificate(
    graph: &Graph,
    table: &Table,
    costs: &Costs,
    reps: &[u32],
    j: u32,
    certificate: &Certificate,
) -> bool
    requires run { (width : ℕ) × IsBlockRun graph.now reps.now j width table.now costs.now }
    ensures { IsTrue result ↔ IsCertificate (plan_of graph.now (block j reps.now) table.now costs.now)
        (block j reps.now) certificate.now }
{
    let (time, blocks) = (certificate.time, certificate.blocks);
    blocks > 0
        && is_periodic(
            graph,
            table,
            costs,
            reps,
            j,
            &certificate.starts,
            time,
            blocks,
        )
        && is_round(
            graph,
            table,
            costs,
            reps,
            j,
            &certificate.steps,
            time,
            blocks,
        )
}
