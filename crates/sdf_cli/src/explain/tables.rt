//! What the faults 13 to 33 mean: tables, the ends of links, inputs and outputs, and runners.

use super::Meaning;

/// What the faults 13 to 33 mean, in this order.
pub(super) static MEANINGS: [Meaning; 21] = [
    // 13 BlockTooLong
    Meaning {
        place: "",
        means: "A block has too many firings for a table.",
        limits: "at most 65,536 firings in a block",
        remedy: "Use a smaller `--blocking`.",
    },
    // 14 FiringMissing
    Meaning {
        place: "",
        means: "A table lacks a firing. Only a program that makes tables in code meets this.",
        limits: "",
        remedy: "Give each firing of the block a place.",
    },
    // 15 FiringTwice
    Meaning {
        place: "",
        means: "A table has a firing twice. Only a program that makes tables in code meets this.",
        limits: "",
        remedy: "Take one of its places away.",
    },
    // 16 FiringUnknown
    Meaning {
        place: "",
        means: "A table names a firing that the block does not have. Only a program that makes tables in code meets this.",
        limits: "",
        remedy: "Remove it.",
    },
    // 17 RowTooWide
    Meaning {
        place: "",
        means: "A row of a table has more places than there are workers. Only a program that makes tables in code meets this.",
        limits: "",
        remedy: "Split the row, or use more workers.",
    },
    // 18 TooEarly
    Meaning {
        place: "",
        means: "A table has a firing before one that it needs. Only a program that makes tables in code meets this.",
        limits: "",
        remedy: "Move it to a later row.",
    },
    // 19 BadHome
    Meaning {
        place: "actor A",
        means: "The actor has no key `processor`, or one past the last worker, and the placement is `file`.",
        limits: "`processor` below the number of workers",
        remedy: "Set `processor`, or use more workers.",
    },
    // 20 NoPort
    Meaning {
        place: "link C",
        means: "An end of the link names a port that the actor does not have, or an input where an output is needed.",
        limits: "ports 0 to 15, by the actor's kind",
        remedy: "`from` is an output port, `to` an input port; `sdfw kinds --json` lists the ports of each kind.",
    },
    // 21 PortTwice
    Meaning {
        place: "link C",
        means: "An end of the link is already an end of an earlier link.",
        limits: "one link at each port",
        remedy: "Use a `fork` to send samples two ways, and an `add` to join two streams.",
    },
    // 22 PortOpen
    Meaning {
        place: "actor A input P",
        means: "A port has no link. It may be `output P` in place of `input P`.",
        limits: "one link at each port",
        remedy: "Link the port, or use a smaller `ways`.",
    },
    // 23 ExtTwice
    Meaning {
        place: "actor A",
        means: "A second input or a second output of one channel.",
        limits: "one input and one output for each channel",
        remedy: "Change `channel`, or use one input and a `fork`.",
    },
    // 24 InputRates
    Meaning {
        place: "actor A",
        means: "In a period the input puts more or fewer samples than the first input.",
        limits: "the same number at each input",
        remedy: "Make the rates behind the two inputs alike.",
    },
    // 25 OutputRates
    Meaning {
        place: "actor A",
        means: "In a period the output takes more or fewer samples than the first output.",
        limits: "the same number at each output",
        remedy: "Make the rates before the two outputs alike.",
    },
    // 26 NoInput
    Meaning {
        place: "",
        means: "The design has no actor of kind `input`.",
        limits: "at least one input",
        remedy: "Add an input; its samples also say how long the output is.",
    },
    // 27 NoOutput
    Meaning {
        place: "channel E",
        means: "No actor of kind `output` has this channel.",
        limits: "outputs of channels 0, 1 and so on without a gap",
        remedy: "Add an output, or renumber the outputs.",
    },
    // 28 KitValue
    Meaning {
        place: "PLACE key K",
        means: "A value is outside its limits, or a list is empty or too long.",
        limits: "those of the key, as `sdfw kinds` lists them; in `initial` whole numbers of 32 bits",
        remedy: "Change the value.",
    },
    // 29 InputLength
    Meaning {
        place: "",
        means: "Too few samples were handed to a runner. The program itself always fills up with zeros.",
        limits: "",
        remedy: "Hand in whole periods.",
    },
    // 30 NotHomed
    Meaning {
        place: "",
        means: "With the runner `rings` each actor has one worker, and the table has an actor in two columns.",
        limits: "",
        remedy: "Use `--placement homed`.",
    },
    // 31 Patience
    Meaning {
        place: "",
        means: "The number of repeated tests is out of range. The program refuses it as a mistake of usage.",
        limits: "0 to 1,000,000",
        remedy: "Change `--patience`.",
    },
    // 32 NoWorker
    Meaning {
        place: "",
        means: "A thread could not be started. The program never gives this: if a thread can't be started, the workers run one after another.",
        limits: "",
        remedy: "",
    },
    // 33 SessionFailed
    Meaning {
        place: "",
        means: "A session was used again after it had failed. Only a program that runs sessions in code meets this.",
        limits: "",
        remedy: "Begin a new session.",
    },
];
