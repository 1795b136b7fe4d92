//! WAV files that are cut off or whose sizes lie, and what reading them returns.

use sdf_wav::FormatFault;

/// The result of reading a file: its samples, or its fault.
pub type Answer = Result<&'static [i16], FormatFault>;

/// A number of bytes, and the result of a file cut to that length or less, but to more than the row before has.
type Kept = (usize, Answer);

/// A file of one channel at 44,100 frames a second, and the result of each front of it. `heads` has the fronts without
/// data, and `fronts` the others.
#[derive(Clone, Copy)]
pub struct Whole {
    pub bytes: &'static [u8],
    heads: &'static [Kept],
    fronts: &'static [Kept],
}

const TRUNCATED: Answer = Err(FormatFault::Truncated);

const NO_FORMAT: Answer = Err(FormatFault::NoFormat);

const NO_DATA: Answer = Err(FormatFault::NoData);

const PARTIAL: Answer = Err(FormatFault::PartialFrame);

/// The canonical file.
pub const CANONICAL: Whole = Whole {
    bytes: b"RIFF\x28\0\0\0WAVEfmt \x10\0\0\0\x01\0\x01\0\x44\xAC\0\0\x88\x58\x01\0\x02\0\x10\0\
        data\x04\0\0\0\x05\0\xFB\xFF",
    heads: &[
        (11, TRUNCATED),
        (12, NO_FORMAT),
        (35, TRUNCATED),
        (36, NO_DATA),
    ],
    fronts: &[(47, TRUNCATED), (48, Ok(&[5, -5]))],
};

/// The results of the fronts without data, of a file with a list and the extensible format.
const LISTED: &[Kept] = &[
    (11, TRUNCATED),
    (12, NO_FORMAT),
    (24, TRUNCATED),
    (26, NO_FORMAT),
    (73, TRUNCATED),
    (74, NO_DATA),
];

/// A file with a list of odd size and its pad byte, the extensible format, and data of a size that is filled in.
pub const SIZED: Whole = Whole {
    bytes: b"RIFF\x01\x02\x03\x04WAVELIST\x05\0\0\0\x01\x02\x03\x04\x05\0\
        fmt \x28\0\0\0\xFE\xFF\x01\0\x44\xAC\0\0\x88\x58\x01\0\x02\0\x10\0\x16\0\x10\0\x04\0\0\0\
        \x01\0\0\0\0\0\x10\0\x80\0\0\xAA\0\x38\x9B\x71\
        data\x04\0\0\0\x01\0\xFE\xFF",
    heads: LISTED,
    fronts: &[(85, TRUNCATED), (86, Ok(&[1, -2]))],
};

/// The file `SIZED`, but with a data size that was never filled in.
pub const OPEN: Whole = Whole {
    bytes: b"RIFF\x01\x02\x03\x04WAVELIST\x05\0\0\0\x01\x02\x03\x04\x05\0\
        fmt \x28\0\0\0\xFE\xFF\x01\0\x44\xAC\0\0\x88\x58\x01\0\x02\0\x10\0\x16\0\x10\0\x04\0\0\0\
        \x01\0\0\0\0\0\x10\0\x80\0\0\xAA\0\x38\x9B\x71\
        data\xFF\xFF\xFF\xFF\x01\0\xFE\xFF",
    heads: LISTED,
    fronts: &[
        (81, TRUNCATED),
        (82, Ok(&[])),
        (83, PARTIAL),
        (84, Ok(&[1])),
        (85, PARTIAL),
        (86, Ok(&[1, -2])),
    ],
};

/// All three files.
pub const FILES: [Whole; 3] = [CANONICAL, SIZED, OPEN];

/// A file whose sizes lie, and its fault.
#[derive(Clone, Copy)]
pub struct Lie {
    pub bytes: &'static [u8],
    pub fault: FormatFault,
}

/// Files with sizes past the end of the input, and one with a size that is not a whole number of frames.
pub const LIES: [Lie; 4] = [
    Lie {
        bytes: b"RIFF\0\0\0\0WAVELIST\xFF\xFF\xFF\xFF\
            fmt \x10\0\0\0\x01\0\x01\0\x44\xAC\0\0\x88\x58\x01\0\x02\0\x10\0\
            data\x04\0\0\0\x05\0\xFB\xFF",
        fault: FormatFault::Truncated,
    },
    Lie {
        bytes: b"RIFF\0\0\0\0WAVEfmt \xFE\xFF\xFF\xFF\x01\0\x01\0\x44\xAC\0\0\x88\x58\x01\0\x02\0\x10\0\
            data\x04\0\0\0\x05\0\xFB\xFFdata\x04\0\0\0\x05\0\xFB\xFF",
        fault: FormatFault::Truncated,
    },
    Lie {
        bytes: b"RIFF\0\0\0\0WAVEfmt \x10\0\0\0\x01\0\x01\0\x44\xAC\0\0\x88\x58\x01\0\x02\0\x10\0\
            data\xFE\xFF\xFF\xFF\x05\0\xFB\xFF",
        fault: FormatFault::Truncated,
    },
    Lie {
        bytes: b"RIFF\0\0\0\0WAVEfmt \x10\0\0\0\x01\0\x02\0\x44\xAC\0\0\x10\xB1\x02\0\x04\0\x10\0\
            data\xFE\xFF\xFF\xFF\x05\0\xFB\xFF",
        fault: FormatFault::PartialFrame,
    },
];

impl Whole {
    /// Returns the first `kept` bytes of the file, or all if it has fewer.
    pub fn front(&self, kept: usize) -> &'static [u8] {
        let bytes = self.bytes;
        &bytes[..kept.min(bytes.len())]
    }

    /// Returns the result of the first `kept` bytes of the file, or `None` past its length.
    pub fn answer(&self, kept: usize) -> Option<Answer> {
        let mut rows = self.heads.iter().chain(self.fronts);
        let (_, answer) = rows.find(|(last, _)| kept <= *last)?;
        Some(*answer)
    }
}
