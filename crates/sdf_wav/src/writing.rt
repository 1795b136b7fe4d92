//! Writing a WAV file.

ghost use Rattle.std.specs.Prelude.{◌≡◌, ◌≤◌, ◌*◌, ◌/◌, ◌%◌, ◌<◌, ◌^◌, length, false, None, OnOk, OnErr, IfErr};
ghost use Rattle.std.specs.Prelude.{IsErrOf};
ghost use Rattle.std.specs.Io.KnownBytes.{Appends};
ghost use Rattle.byteorder.specs.Endian.{little_bytes};
ghost use Rattle.sdf_wav.specs.Canonical.{header, sample_bytes, canonical_wav, write_fault, Writes, IsWritingFault};
ghost use Rattle.sdf_wav.specs.Canonical.{IsCanonical};
ghost use Rattle.sdf_wav.specs.PiecesOut.{Puts};
ghost use Rattle.sdf_wav.specs.Device.{failures_after, failures_after_read, AppendsFront, Failed};

use crate::content_out::ContentOut;
use crate::device::{DeviceFault, Writer};
use crate::fault::WavFault;
use crate::moving::put_all;
use crate::wav::{MAX_CHANNELS, Wav};
use crate::wav_out::WavOut;
use byteorder::{ByteOrder, LittleEndian};

fn bytes_of_u16(n: u16) -> [u8; 2]
    ensures { result ≡ little_bytes 2 n }
{
    let mut bytes = [0; 2];
    LittleEndian::write_u16(&mut bytes, n);
    bytes
}

fn bytes_of_u32(n: u32) -> [u8; 4]
    ensures { result ≡ little_bytes 4 n }
{
    let mut bytes = [0; 4];
    LittleEndian::write_u32(&mut bytes, n);
    bytes
}

/// The bytes of a canonical file before its data.
pub const HEADER_BYTES: usize = 44;

/// The most bytes a second that a header can state.
pub const MAX_BYTES_A_SECOND: u64 = 4_294_967_295;

/// The most bytes of data that a header can state. Its RIFF size is 36 bytes more.
pub const MAX_DATA_BYTES: u64 = 4_294_967_259;

/// Returns the 44 bytes before `size` bytes of data.
#[tactic(auto, unfolding(crate::specs::Canonical::header))]
pub(crate) fn header(rate: u32, channels: u16, size: u32) -> [u8; HEADER_BYTES]
    requires size { size ≤ MAX_DATA_BYTES }
    requires rate { rate * (2 * channels) < 2 ^ 32 }
    requires channels { channels ≤ MAX_CHANNELS }
    ensures { result ≡ header rate channels size }
{
    let s = bytes_of_u32(36 + size);
    let c = bytes_of_u16(channels);
    let r = bytes_of_u32(rate);
    let b = bytes_of_u32(rate * (2 * u32::from(channels)));
    let a = bytes_of_u16(2 * channels);
    let d = bytes_of_u32(size);
    [
        b'R', b'I', b'F', b'F', s[0], s[1], s[2], s[3], b'W', b'A', b'V', b'E', b'f', b'm', b't',
        b' ', 16, 0, 0, 0, 1, 0, c[0], c[1], r[0], r[1], r[2], r[3], b[0], b[1], b[2], b[3], a[0],
        a[1], 16, 0, b'd', b'a', b't', b'a', d[0], d[1], d[2], d[3],
    ]
}

/// Samples converted at a time.
const WRITE_PIECE: usize = 8192;

/// Writes `samples`, a piece at a time.
pub(crate) fn put_samples<W: Writer>(writer: &mut W, samples: &[i16]) -> Result<(), DeviceFault>
    ensures ok { OnOk result (Appends (W.state writer.old).contents (W.state writer.new).contents
        (sample_bytes samples.now)) }
    ensures err { OnErr result (AppendsFront (W.state writer.old).contents (W.state writer.new).contents
        (sample_bytes samples.now)) }
    ensures counted { (W.state writer.new).failures ≡ failures_after_read result (W.state writer.old).failures }
{
    let mut piece = [0u8; 2 * WRITE_PIECE];
    let mut at = 0;
    while at < samples.len() {
        let count = (samples.len() - at).min(WRITE_PIECE);
        let part = &mut piece[..2 * count];
        LittleEndian::write_i16_into(&samples[at..at + count], part);
        put_all(writer, part)?;
        at += count;
    }
    Ok(())
}

/// Writes a whole content in one piece.
fn put_content<W: Writer>(
    writer: &mut W,
    content: ContentOut,
    samples: &[i16],
) -> Result<(), WavFault>
    requires unspent { content.spent ≡ false }
    requires frames { length samples.now % content.channels ≡ 0 }
    requires whole { content.missing * content.channels ≡ length samples.now }
    requires ends { content.missing ≡ length samples.now / content.channels }
    ensures writes { Puts (W.state writer.old).contents (W.state writer.new).contents
        (sample_bytes samples.now) result }
    ensures counted { (W.state writer.new).failures ≡ failures_after result (W.state writer.old).failures }
{
    let mut out = WavOut::over(writer, content);
    out.put(samples)?;
    out.end()
}

/// Writes the canonical file of `wav`: RIFF/WAVE with one `fmt ` chunk of 16 bytes and one `data` chunk. Fails with
/// `RateTooLarge` or `TooLong`, tested in this order before the first byte. After `Write`, a prefix of the file is
/// written.
pub fn write_wav<W: Writer>(writer: &mut W, wav: &Wav) -> Result<(), WavFault>
    ensures writes { Writes (W.state writer.old).contents (W.state writer.new).contents (write_fault wav.now)
        (canonical_wav wav.now) result }

    // What is written is the canonical file of a sound. Whatever is known of the bytes, no other fault is returned.
    ensures canonical { write_fault wav.now ≡ None → IsCanonical (canonical_wav wav.now) }
    ensures fault { IfErr result IsWritingFault }

    // A failure of the writer is returned at once: no other call of it failed.
    ensures counted { (W.state writer.new).failures ≡ failures_after result (W.state writer.old).failures }
    ensures device { IsErrOf result WavFault.Write →
        Failed (W.state writer.old).failures (W.state writer.new).failures }
{
    let samples = wav.samples();
    let content = ContentOut::start(
        writer,
        u64::from(wav.rate()),
        wav.channels(),
        wav.frames() as u64,
    )?;
    put_content(writer, content, samples)
}
