//! From a WAV file to a WAV file.

ghost use Rattle.sdf_plan.specs.Plans.{Suits};
ghost use Rattle.sdf_process.specs.Run.{IsRun};

use crate::planned_net::PlannedNet;
use crate::running::run_net;
use sdf_faults::Fault;
use sdf_file::Design;
use sdf_plan::Plan;
use sdf_run::{Gate, NoGate};
use sdf_wav::{Reader, Writer};
use std::thread::Threads;

/// Reads a WAV file, runs a design on it by its plan, and writes the canonical WAV file of the output. There is only
/// one output (`laws::one_output`).
///
/// First come the tests of the input file before its content (34 to 45). Then come the tests of the output, by the size
/// of the data: 59 ChannelsMissing, 60 RateNotWhole, 46 RateTooLarge and 45 TooLong. Then the header of the output is
/// written and the content is read (43 Truncated). If the size of the data is not filled in, the content comes first
/// (45 TooLong, 44 PartialFrame), then the tests of the output and its header. Memory (1) and the devices (47 Read,
/// 48 Write) may fail at any point.
///
/// Workers by rows and over rings call `gate` before each firing. A run on one thread or in parts does not call it.
pub fn process_with<T: Threads + AllocGlobal + Sync, R: Reader, W: Writer, G: Gate>(
    rt: &T,
    reader: &mut R,
    writer: &mut W,
    design: &Design,
    plan: &Plan,
    gate: &G,
) -> Result<(), Fault>
    requires { Suits design.now.net plan.now }
    ensures { IsRun design.now.net plan.now.period.repetitions (R.state reader.old) (R.state reader.new)
        (W.state writer.old) (W.state writer.new) result }
{
    let planned = PlannedNet {
        net: design.net(),
        plan,
    };
    run_net(rt, reader, writer, planned, gate)
}

/// Reads a WAV file, runs `design` on it by `plan`, and writes the WAV file of the output. The gate of `process_with`
/// lets each firing pass here.
pub fn process<T: Threads + AllocGlobal + Sync, R: Reader, W: Writer>(
    rt: &T,
    reader: &mut R,
    writer: &mut W,
    design: &Design,
    plan: &Plan,
) -> Result<(), Fault>
    requires { Suits design.now.net plan.now }
    ensures { IsRun design.now.net plan.now.period.repetitions (R.state reader.old) (R.state reader.new)
        (W.state writer.old) (W.state writer.new) result }
{
    process_with(rt, reader, writer, design, plan, &NoGate)
}
