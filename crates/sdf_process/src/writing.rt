//! Writing of samples to a file whose header is written.

ghost use Rattle.std.specs.Prelude.{◌≡◌, ◌-◌, ◌*◌, ◌≤◌, ℕ, false, length, IfOk};
ghost use Rattle.sdf_actor.specs.Wires.{lists as items_of};
ghost use Rattle.sdf_wav.specs.Canonical.{sample_bytes};
ghost use Rattle.sdf_process.specs.Output.{in_turn};
ghost use Rattle.sdf_process.specs.Stages.{PutsBytes};
ghost use Rattle.sdf_process.specs.Streams.{CanPut};

use sdf_faults::Fault;
use sdf_wav::{ContentOut, Writer};

/// Writes the frames of `parts`, one list after the other.
pub(crate) fn put_in_turn<W: Writer>(
    writer: &mut W,
    output: &mut ContentOut,
    parts: &[Vec<i16>],
) -> Result<(), Fault>
    requires unspent { output.old.spent ≡ false }
    requires some { 1 ≤ output.old.channels }
    requires room { CanPut output.old (items_of parts.now) }
    ensures puts { PutsBytes (W.state writer.old) (W.state writer.new)
        (sample_bytes (in_turn (items_of parts.now))) result }
    ensures owed { (frames : ℕ) → length (in_turn (items_of parts.now)) ≡ frames * output.old.channels →
        IfOk result (λ x. output.new ≡ record output.old { missing = output.old.missing - frames }) }
{
    for list in parts {
        output.put(writer, list)?;
    }
    Ok(())
}
