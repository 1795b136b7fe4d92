//! The ports of each kind, by numbers of any type: the values of its keys, or their names. `one` and `zero` are the one
//! and the zero of that type.

ghost use Rattle.std.specs.Prelude.{◌≡◌};
ghost use Rattle.sdf_kinds.specs.Ports.{ports_in, samples_in, single_phase, input, output, fir, decimate, interpolate};
ghost use Rattle.sdf_kinds.specs.Ports.{add, fork, pointwise, deal, gather};

/// The ports on one side of an actor, numbered from 0.
#[derive(Clone, Copy)]
pub enum SideRow<N> {
    /// Each firing moves `samples` samples at every port.
    Every { ports: N, samples: N },
    /// A firing at phase `j` moves `samples` samples at port `j`, and none at the others.
    InTurn { ports: N, samples: N },
}

/// The ports of an actor, and the number of phases in its cycle.
#[derive(Clone, Copy)]
pub struct PortRow<N> {
    pub cycle: N,
    pub inputs: SideRow<N>,
    pub outputs: SideRow<N>,
}

impl<N: Copy> SideRow<N> {
    /// Returns the number of ports.
    pub fn ports(self) -> N
        ensures { result ≡ ports_in self }
    {
        match self {
            SideRow::Every { ports, .. } | SideRow::InTurn { ports, .. } => ports,
        }
    }

    /// Returns the number of samples that a firing moves at a port that it serves.
    pub fn samples(self) -> N
        ensures { result ≡ samples_in self }
    {
        match self {
            SideRow::Every { samples, .. } | SideRow::InTurn { samples, .. } => samples,
        }
    }
}

/// Returns the ports of an actor whose firings all do the same: `takes` samples at each of `inputs` ports, `puts` at
/// each of `outputs`.
fn single_phase<N: Copy>(inputs: N, takes: N, outputs: N, puts: N, one: N) -> PortRow<N>
    ensures { result ≡ single_phase inputs takes outputs puts one }
{
    PortRow {
        cycle: one,
        inputs: SideRow::Every {
            ports: inputs,
            samples: takes,
        },
        outputs: SideRow::Every {
            ports: outputs,
            samples: puts,
        },
    }
}

/// Returns the ports of an `input`.
pub fn input<N: Copy>(block: N, zero: N, one: N) -> PortRow<N>
    ensures { result ≡ input block zero one }
{
    single_phase(zero, zero, one, block, one)
}

/// Returns the ports of an `output`.
pub fn output<N: Copy>(block: N, zero: N, one: N) -> PortRow<N>
    ensures { result ≡ output block zero one }
{
    single_phase(one, block, zero, zero, one)
}

/// Returns the ports of a `fir`.
pub fn fir<N: Copy>(up: N, down: N, one: N) -> PortRow<N>
    ensures { result ≡ fir up down one }
{
    single_phase(one, down, one, up, one)
}

/// Returns the ports of a `decimate`.
pub fn decimate<N: Copy>(factor: N, one: N) -> PortRow<N>
    ensures { result ≡ decimate factor one }
{
    single_phase(one, factor, one, one, one)
}

/// Returns the ports of an `interpolate`.
pub fn interpolate<N: Copy>(factor: N, one: N) -> PortRow<N>
    ensures { result ≡ interpolate factor one }
{
    single_phase(one, one, one, factor, one)
}

/// Returns the ports of an `add`.
pub fn add<N: Copy>(ways: N, one: N) -> PortRow<N>
    ensures { result ≡ add ways one }
{
    single_phase(ways, one, one, one, one)
}

/// Returns the ports of a `fork`.
pub fn fork<N: Copy>(ways: N, one: N) -> PortRow<N>
    ensures { result ≡ fork ways one }
{
    single_phase(one, one, ways, one, one)
}

/// Returns the ports of a `gain`, `delay`, `table`, `clip` or `offset`.
pub fn pointwise<N: Copy>(one: N) -> PortRow<N>
    ensures { result ≡ pointwise one }
{
    single_phase(one, one, one, one, one)
}

/// Returns the ports of a `deal`, which serves its outputs in turn.
pub fn deal<N: Copy>(ways: N, run: N, one: N) -> PortRow<N>
    ensures { result ≡ deal ways run one }
{
    PortRow {
        cycle: ways,
        inputs: SideRow::Every {
            ports: one,
            samples: run,
        },
        outputs: SideRow::InTurn {
            ports: ways,
            samples: run,
        },
    }
}

/// Returns the ports of a `gather`, which serves its inputs in turn.
pub fn gather<N: Copy>(ways: N, run: N, one: N) -> PortRow<N>
    ensures { result ≡ gather ways run one }
{
    PortRow {
        cycle: ways,
        inputs: SideRow::InTurn {
            ports: ways,
            samples: run,
        },
        outputs: SideRow::Every {
            ports: one,
            samples: run,
        },
    }
}
