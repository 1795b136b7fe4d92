//! Moving bytes from a reader and to a writer, however many calls it takes.

ghost use Rattle.std.specs.Prelude.{◌≡◌, ◌≤◌, length, IfOk, OnOk, OnErr};
ghost use Rattle.std.specs.Io.KnownBytes.{Appends};
ghost use Rattle.sdf_wav.specs.Device.{failures_after_read, Known, Fills, Skips, LosesFront, AppendsFront};

use crate::device::{DeviceFault, Reader, Writer};

/// Fills `buf` from `reader`, and returns the number of bytes: fewer than `buf` holds only if the input ends.
pub(crate) fn fill<R: Reader>(reader: &mut R, buf: &mut [u8]) -> Result<usize, DeviceFault>
    ensures fits { IfOk result (λ n. n ≤ length buf.new) }
    ensures ok { IfOk result (λ n. Known (R.state reader.old).remaining (R.state reader.new).remaining
        (λ input left. Fills input left buf.new n)) }
    ensures err { OnErr result (Known (R.state reader.old).remaining (R.state reader.new).remaining LosesFront) }
    ensures counted { (R.state reader.new).failures ≡ failures_after_read result (R.state reader.old).failures }
{
    let mut at = 0;
    while at < buf.len() {
        match reader.read(&mut buf[at..]) {
            Ok(0) => return Ok(at),
            Ok(count) => at += count,
            Err(fault) => return Err(fault),
        }
    }
    Ok(at)
}

/// Bytes read at a time when none is kept.
const SKIP_PIECE: usize = 4096;

/// Reads `size` bytes and drops them. Returns how many there were: fewer only if the input ends.
pub(crate) fn skip<R: Reader>(reader: &mut R, size: u64) -> Result<u64, DeviceFault>
    ensures fits { IfOk result (λ n. n ≤ size) }
    ensures ok { IfOk result (λ n. Known (R.state reader.old).remaining (R.state reader.new).remaining
        (λ input left. Skips input left size n)) }
    ensures err { OnErr result (Known (R.state reader.old).remaining (R.state reader.new).remaining LosesFront) }
    ensures counted { (R.state reader.new).failures ≡ failures_after_read result (R.state reader.old).failures }
{
    let mut piece = [0u8; SKIP_PIECE];
    let mut skipped = 0u64;
    while skipped < size {
        let want = (size - skipped).min(SKIP_PIECE as u64) as usize;
        let got = fill(reader, &mut piece[..want])?;
        skipped += got as u64;
        if got < want {
            break;
        }
    }
    Ok(skipped)
}

/// Writes all of `bytes`, or stops at the first call that fails or takes none of them.
pub(crate) fn put_all<W: Writer>(writer: &mut W, bytes: &[u8]) -> Result<(), DeviceFault>
    ensures ok { OnOk result (Appends (W.state writer.old).contents (W.state writer.new).contents bytes.now) }
    ensures err { OnErr result (AppendsFront (W.state writer.old).contents (W.state writer.new).contents bytes.now) }
    ensures counted { (W.state writer.new).failures ≡ failures_after_read result (W.state writer.old).failures }
{
    let mut at = 0;
    while at < bytes.len() {
        match writer.write(&bytes[at..]) {
            Ok(0) => return Err(DeviceFault),
            Ok(taken) => at += taken,
            Err(fault) => return Err(fault),
        }
    }
    Ok(())
}
