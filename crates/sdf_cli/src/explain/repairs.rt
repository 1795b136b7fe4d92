//! Lines of graph files that have a fault, and the same lines mended.

/// Lines that have the fault `number`, and lines that don't have it. `make documents` tries both in a design of
/// `examples/`.
#[derive(Clone, Copy)]
pub(super) struct Repair {
    pub(super) number: u32,
    pub(super) before: &'static str,
    pub(super) after: &'static str,
}

/// The repairs of the common faults of designs.
pub(super) static REPAIRS: [Repair; 15] = [
    // 8 Inconsistent
    Repair {
        number: 8,
        before: "  name = \"back\"\n  kind = \"decimate\"\n  factor = 2\n",
        after: "  name = \"back\"\n  kind = \"gain\"\n  gain = 18022\n  shift = 15\n",
    },
    // 10 Deadlock
    Repair {
        number: 10,
        before: "  from = \"gain\"\n  to = \"add:1\"\n",
        after: "  from = \"gain\"\n  to = \"add:1\"\n  initial = [0]\n",
    },
    // 20 NoPort
    Repair {
        number: 20,
        before: "  from = \"right\"\n  to = \"both:2\"\n",
        after: "  from = \"right\"\n  to = \"both:1\"\n",
    },
    // 21 PortTwice
    Repair {
        number: 21,
        before: "  from = \"right\"\n  to = \"both:0\"\n",
        after: "  from = \"right\"\n  to = \"both:1\"\n",
    },
    // 22 PortOpen
    Repair {
        number: 22,
        before: "  kind = \"add\"\n  ways = 3\n",
        after: "  kind = \"add\"\n  ways = 2\n",
    },
    // 23 ExtTwice
    Repair {
        number: 23,
        before: "  name = \"right\"\n  kind = \"input\"\n  channel = 0\n",
        after: "  name = \"right\"\n  kind = \"input\"\n  channel = 1\n",
    },
    // 27 NoOutput
    Repair {
        number: 27,
        before: "  kind = \"output\"\n  channel = 1\n",
        after: "  kind = \"output\"\n  channel = 0\n",
    },
    // 28 KitValue
    Repair {
        number: 28,
        before: "  gain = 1\n  shift = 16\n",
        after: "  gain = 1\n  shift = 1\n",
    },
    // 51 UnknownKey
    Repair {
        number: 51,
        before: "  gain = 1\n  shfit = 1\n",
        after: "  gain = 1\n  shift = 1\n",
    },
    // 52 MissingKey
    Repair {
        number: 52,
        before: "  gain = 1\n",
        after: "  gain = 1\n  shift = 1\n",
    },
    // 53 WrongType
    Repair {
        number: 53,
        before: "  gain = 0.5\n",
        after: "  gain = 1\n  shift = 1\n",
    },
    // 55 NameTwice
    Repair {
        number: 55,
        before: "  name = \"left\"\n  kind = \"input\"\n  channel = 1\n",
        after: "  name = \"right\"\n  kind = \"input\"\n  channel = 1\n",
    },
    // 56 UnknownKind
    Repair {
        number: 56,
        before: "  format = 1\n",
        after: "  format = 2\n",
    },
    // 57 BadPort
    Repair {
        number: 57,
        before: "  from = \"right\"\n  to = \"both:01\"\n",
        after: "  from = \"right\"\n  to = \"both:1\"\n",
    },
    // 58 NoFile
    Repair {
        number: 58,
        before: "  file = \"taps\"\n",
        after: "  file = \"taps.toml\"\n",
    },
];
