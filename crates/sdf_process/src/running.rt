//! A run from the first byte of its input to the last byte of its output.

ghost use Rattle.std.specs.Prelude.{◌≡◌, None};
ghost use Rattle.sdf_wav.specs.PiecesIn.{known_frames};
ghost use Rattle.sdf_process.specs.Run.{IsRun};
ghost use Rattle.sdf_process.specs.Stages.{RunsOn};
ghost use Rattle.sdf_process.specs.PlannedNets.{IsUnreadContent, IsPlannedNet};

use crate::io_rates::{IoRates, StreamInfo};
use crate::opened_output::{OpenedOutput, run_by_plan};
use crate::planned_net::PlannedNet;
use crate::source::Source;
use crate::stages::{read_content, write_header};
use sdf_faults::Fault;
use sdf_run::Gate;
use sdf_wav::{ContentIn, Reader, Writer};
use std::thread::Threads;

/// A content of `frames` frames that is still to be read. Its size is filled in.
#[derive(Drop)]
struct UnreadContent {
    content: ContentIn,
    frames: usize,
}

/// Runs a net on a content whose size is filled in. The output is tested, and its header written, before the content
/// is read.
fn run_sized<T: Threads + AllocGlobal + Sync, R: Reader, W: Writer, G: Gate>(
    rt: &T,
    reader: &mut R,
    writer: &mut W,
    planned: PlannedNet<'_>,
    gate: &G,
    unread_content: UnreadContent,
) -> Result<(), Fault>
    requires planned { IsPlannedNet planned }
    requires content { IsUnreadContent unread_content.content unread_content.frames }
    ensures { RunsOn planned.entry.net.now planned.entry.plan.now.period.repetitions unread_content.content
        (R.state reader.old) (R.state reader.new) (W.state writer.old) (W.state writer.new) result }
{
    let UnreadContent { content, frames } = unread_content;
    let io = IoRates::of_net(planned.net);
    let info = StreamInfo {
        rate: content.rate(),
        channels: content.channels(),
        frames,
    };
    let output_size = io.output_size(info)?;
    let output = write_header(writer, io, output_size)?;
    let opened_output = OpenedOutput {
        source: Source::Content(content),
        frames,
        output,
    };
    run_by_plan(rt, reader, writer, planned, gate, opened_output)
}

/// Runs a net on a content whose size was never filled in. It is read whole before the output is tested and opened.
fn run_unsized<T: Threads + AllocGlobal + Sync, R: Reader, W: Writer, G: Gate>(
    rt: &T,
    reader: &mut R,
    writer: &mut W,
    planned: PlannedNet<'_>,
    gate: &G,
    content: ContentIn,
) -> Result<(), Fault>
    requires planned { IsPlannedNet planned }
    requires unread { content.gone ≡ 0 }
    requires unspoilt { content.fault ≡ None }
    requires unknown { known_frames content ≡ None }
    ensures { RunsOn planned.entry.net.now planned.entry.plan.now.period.repetitions content
        (R.state reader.old) (R.state reader.new) (W.state writer.old) (W.state writer.new) result }
{
    let io = IoRates::of_net(planned.net);
    let sound = read_content(rt.alloc(), reader, content)?;
    let output_size = io.output_size(StreamInfo::of_sound(&sound))?;
    let output = write_header(writer, io, output_size)?;
    let opened_output = OpenedOutput {
        frames: sound.frames(),
        source: Source::Decoded { sound, taken: 0 },
        output,
    };
    run_by_plan(rt, reader, writer, planned, gate, opened_output)
}

/// Runs a net on a WAV file, and writes the WAV file of its output.
pub(crate) fn run_net<T: Threads + AllocGlobal + Sync, R: Reader, W: Writer, G: Gate>(
    rt: &T,
    reader: &mut R,
    writer: &mut W,
    planned: PlannedNet<'_>,
    gate: &G,
) -> Result<(), Fault>
    requires { IsPlannedNet planned }
    ensures { IsRun planned.entry.net.now planned.entry.plan.now.period.repetitions (R.state reader.old)
        (R.state reader.new)
        (W.state writer.old) (W.state writer.new) result }
{
    let content = ContentIn::open(reader)?;
    match content.frames() {
        Some(frames) => {
            let unread_content = UnreadContent { content, frames };
            run_sized(rt, reader, writer, planned, gate, unread_content)
        }
        None => run_unsized(rt, reader, writer, planned, gate, content),
    }
}
