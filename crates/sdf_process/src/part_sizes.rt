//! The sizes of the pieces and parts into which a sound is cut in time.

ghost use Rattle.std.specs.Prelude.{◌≡◌, ◌<◌, ◌≤◌, ℕ, List, max};
ghost use Rattle.sdf_graph.specs.Periods.{IsLeastPeriod};
ghost use Rattle.sdf_graph.specs.Rates.{rates};
ghost use Rattle.sdf_actor.specs.Graphs.{graph_of};
ghost use Rattle.sdf_kit.specs.Kit.{kit_steps};
ghost use Rattle.sdf_process.specs.Cuts.{AreAtOnce, IsLeastPart, IsPieceSize, periods_in};
ghost use Rattle.sdf_process.specs.Output.{AreIoRates, io_rates_of};

use crate::io_rates::IoRates;
use sdf_file::Design;
use sdf_parallel::part_size;

/// The most frames that a piece on one thread reads or makes, unless a period has more.
pub(crate) const PIECE: usize = 32_768;

/// The most frames that a stretch of a part reads or makes, unless a period has more. Its lists then stay in a cache.
pub(crate) const STRETCH: usize = 16_384;

/// The most frames that each worker reads or makes of a piece, unless a period or eight warm-ups have more. The longer
/// a piece, the fewer threads are started.
pub(crate) const SHARE: usize = 131_072;

/// The most frames that each worker reads or makes of the first piece, unless a period or eight warm-ups have more. No
/// part runs while it is read.
pub(crate) const FIRST_SHARE: usize = 65_536;

/// The frames that the shortest parts of a piece read or make, unless a period or eight warm-ups have more, or an equal
/// share of the piece has fewer.
const PART: usize = 8_192;

/// A partition of a piece: the most parts that are run in parallel, and the periods of warm-up before each.
#[derive(Clone, Copy)]
pub(crate) struct Partition {
    pub(crate) parts: u32,
    pub(crate) warm: u32,
}

/// Returns the number of periods that fit into `frames` frames, or 1 if none does.
pub(crate) fn periods_in(frames: usize, io: IoRates) -> u32
    requires limits { AreIoRates io }
    requires few { frames < 4294967296 }
    ensures { result ≡ periods_in frames io }
{
    (frames / io.taken.max(io.made)).max(1) as u32
}

impl Partition {
    /// Returns the fewest periods of a part, if `periods` periods are run in parallel parts.
    pub(crate) fn least_part(self, io: IoRates, periods: u32) -> u32
        requires { AreIoRates io }
        ensures part { IsLeastPart io self periods result }
        ensures long { self.warm ≤ result }
    {
        let share = periods.div_ceil(self.parts.max(1));
        part_size(share.min(periods_in(PART, io)), 1, self.warm)
    }
}

/// Returns the number of periods of a piece, if each worker has up to `share` frames of it, or eight warm-ups. A piece
/// that is not cut has up to `PIECE` frames.
pub(crate) fn piece_periods(io: IoRates, partition: Option<Partition>, share: usize) -> u32
    requires limits { AreIoRates io }
    requires few { share < 4294967296 }
    ensures some { 0 < result }
    ensures piece { IsPieceSize share io partition result }
{
    match partition {
        Some(Partition { parts, warm }) => part_size(periods_in(share, io), 1, warm)
            .saturating_mul(parts)
            .max(1),
        None => periods_in(PIECE, io),
    }
}

/// Returns the most parts of a sound that `workers` workers run in parallel, if `design` makes `frames` frames and a
/// part needs `warm` periods of warm-up. If the last period is not whole, it is run alone.
pub fn parts_at_once(design: &Design, workers: u32, warm: u32, frames: u64) -> u32
    ensures some { 0 < frames → 0 < result }
    ensures few { result ≤ max 1 workers }
    ensures parts { (q : List ℕ) → IsLeastPeriod (rates (graph_of kit_steps design.now.net)) q →
        AreAtOnce (io_rates_of design.now.net q) (record { parts = workers; warm = warm }) frames result }
{
    let io = IoRates::of_net(design.net());
    let partition = Partition {
        parts: workers,
        warm,
    };
    let periods = frames.div_ceil(io.made as u64).min(u64::from(u32::MAX)) as u32;
    let piece = piece_periods(io, Some(partition), FIRST_SHARE).min(periods);
    let part = partition.least_part(io, piece);
    piece.div_ceil(part).min(workers.max(1))
}
