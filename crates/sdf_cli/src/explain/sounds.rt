//! What the faults 34 to 48 mean: WAV files and devices.

use super::Meaning;

/// What the faults 34 to 48 mean, in this order.
pub(super) static MEANINGS: [Meaning; 15] = [
    // 34 NotRiff
    Meaning {
        place: "",
        means: "The input does not begin with `RIFF`. A run of one file leaves a new OUT empty.",
        limits: "",
        remedy: "Give a WAV file; convert other formats first.",
    },
    // 35 NotWave
    Meaning {
        place: "",
        means: "The input is a RIFF file, but not a WAVE file. A run of one file leaves a new OUT empty.",
        limits: "",
        remedy: "Give a WAV file; convert other formats first.",
    },
    // 36 NoFormat
    Meaning {
        place: "",
        means: "The WAV file has no `fmt ` chunk before its samples. A run of one file leaves a new OUT empty.",
        limits: "",
        remedy: "The program that wrote the file left its format out: write the file again with another one.",
    },
    // 37 ShortFormat
    Meaning {
        place: "",
        means: "The `fmt ` chunk is too short. A run of one file leaves a new OUT empty.",
        limits: "16 bytes, 40 in the extensible form",
        remedy: "The program that wrote the file cut its format short: write the file again with another one.",
    },
    // 38 NotPcm16
    Meaning {
        place: "",
        means: "The samples are not 16-bit PCM. A run of one file leaves a new OUT empty.",
        limits: "16-bit PCM, plain or extensible",
        remedy: "Convert the file: `sox IN -b 16 -e signed-integer OUT.wav`, or `ffmpeg -i IN -c:a pcm_s16le OUT.wav`.",
    },
    // 39 Channels
    Meaning {
        place: "",
        means: "The WAV file has no channels, or too many. A run of one file leaves a new OUT empty.",
        limits: "1 to 8 channels",
        remedy: "Convert the file to at most 8 channels.",
    },
    // 40 RateZero
    Meaning {
        place: "",
        means: "The WAV file's header gives a rate of 0. A run of one file leaves a new OUT empty.",
        limits: "at least 1 sample a second",
        remedy: "Write the file again with its true rate.",
    },
    // 41 BadAlign
    Meaning {
        place: "",
        means: "The WAV file's header gives a frame size other than two bytes for each channel. A run of one file leaves a new OUT empty.",
        limits: "",
        remedy: "Write the file again with another program: its header contradicts itself.",
    },
    // 42 NoData
    Meaning {
        place: "",
        means: "The WAV file has no samples: it ends before a `data` chunk. A run of one file leaves a new OUT empty.",
        limits: "",
        remedy: "Write the file again: the program that made it stopped before the first sample.",
    },
    // 43 Truncated
    Meaning {
        place: "",
        means: "The WAV file is empty or ends within one of its parts. A run of one file leaves a new OUT empty or cut off.",
        limits: "",
        remedy: "Get the whole file: a copy was cut off, or nothing was written to it. Use `run --open-ended` if another program writes it to a pipe.",
    },
    // 44 PartialFrame
    Meaning {
        place: "",
        means: "The size of the samples is not a whole number of frames. A run of one file leaves a new OUT empty.",
        limits: "",
        remedy: "Write the file again: its last frame is cut off, or its header gives the wrong number of channels.",
    },
    // 45 TooLong
    Meaning {
        place: "",
        means: "Too many chunks or bytes of samples. A run of one file leaves a new OUT empty.",
        limits: "65,536 chunks before the samples; 4,294,967,294 bytes read to an unknown end; 4,294,967,259 bytes written",
        remedy: "Split the file.",
    },
    // 46 RateTooLarge
    Meaning {
        place: "",
        means: "The output's rate, or its bytes a second, do not fit in 32 bits. A run of one file leaves a new OUT empty.",
        limits: "4,294,967,295",
        remedy: "Use fewer output channels or a lower rate.",
    },
    // 47 Read
    Meaning {
        place: "",
        means: "A file can't be opened, or reading it failed, or it is too long to be read whole.",
        limits: "1,073,741,824 bytes of GRAPH, a coefficient file or the IN of `profile`",
        remedy: "Check that the file exists, is not a folder and may be read.",
    },
    // 48 Write
    Meaning {
        place: "",
        means: "A file or a folder can't be made, or writing to it or to standard output failed.",
        limits: "",
        remedy: "Check that the folder exists and may be written, and that the disk is not full.",
    },
];
