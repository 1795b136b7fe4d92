//! What the faults 1 to 12 mean: memory, graphs, their periods and the options.

use super::Meaning;

/// What the faults 1 to 12 mean, in this order.
pub(super) static MEANINGS: [Meaning; 12] = [
    // 1 OutOfMemory
    Meaning {
        place: "",
        means: "Memory was refused.",
        limits: "",
        remedy: "Free memory or use a smaller block, design or file, and run again.",
    },
    // 2 ActorCount
    Meaning {
        place: "",
        means: "The design has no actor, or too many.",
        limits: "1 to 64 actors",
        remedy: "Join actors, or split the design into files that are run one after the other.",
    },
    // 3 ChannelCount
    Meaning {
        place: "",
        means: "The design has too many links.",
        limits: "at most 256 links",
        remedy: "Split the design into files that are run one after the other.",
    },
    // 4 BadEnd
    Meaning {
        place: "link C",
        means: "A link's end names no actor. Only a program that makes graphs in code meets this: a graph file has 57 in its place.",
        limits: "",
        remedy: "Name an actor that the graph has.",
    },
    // 5 BadRate
    Meaning {
        place: "link C",
        means: "A firing puts or takes too many samples on a link, or a whole cycle none. Only a program that makes graphs in code meets this: a graph file has 28 in its place.",
        limits: "0 to 1,024 samples in a firing, at least 1 in a cycle",
        remedy: "Use other rates, or split the actor into two stages.",
    },
    // 6 InitialCount
    Meaning {
        place: "link C",
        means: "A link begins with too many samples.",
        limits: "at most 65,536 initial samples",
        remedy: "Shorten `initial`, or use an actor of kind `delay`.",
    },
    // 7 NotConnected
    Meaning {
        place: "actor A",
        means: "No path of links, in either direction, leads from the first actor to this one.",
        limits: "every actor is reached from the first",
        remedy: "Write two files, or join the parts by a link, as `examples/swap` does.",
    },
    // 8 Inconsistent
    Meaning {
        place: "link C",
        means: "No choice of firing counts balances every link, so that the samples put on it equal the samples taken from it.",
        limits: "",
        remedy: "Compare the rates on the two ways that meet at this link, and change one of them.",
    },
    // 9 PeriodTooLong
    Meaning {
        place: "",
        means: "A period has too many firings.",
        limits: "at most 65,536 firings in a period",
        remedy: "Use rates with greater common factors, or convert in fewer or other stages.",
    },
    // 10 Deadlock
    Meaning {
        place: "",
        means: "No sequence of firings completes a period: each actor that has not finished waits for samples. A line for each actor says how often it fired and its first link that holds too little.",
        limits: "",
        remedy: "Give one link of each loop initial samples: `initial = [0]`, or more zeros if its target takes several in a firing. `--why` names a loop.",
    },
    // 11 BlockingFactor
    Meaning {
        place: "",
        means: "The number of periods in a block is out of range. The program refuses it as a mistake of usage.",
        limits: "1 to 64",
        remedy: "Change `--blocking`.",
    },
    // 12 WorkerCount
    Meaning {
        place: "",
        means: "The number of workers is out of range. The program refuses it as a mistake of usage.",
        limits: "1 to 16",
        remedy: "Change `--workers`.",
    },
];
