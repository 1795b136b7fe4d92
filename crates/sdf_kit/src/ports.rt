//! Ports, and the number of samples that a firing moves at each.

ghost use Rattle.std.specs.Prelude.{◌≡◌, ◌<◌};
ghost use Rattle.sdf_kit.specs.Ports.{count, moved, steady};

/// The ports on one side of an actor, numbered from 0.
#[derive(Clone, Copy)]
pub enum PortRates {
    /// Each firing moves `rate` samples at every port.
    Every { ports: usize, rate: u32 },
    /// A firing at phase `j` moves `rate` samples at port `j`, and none at the others.
    InTurn { ports: usize, rate: u32 },
}

impl PortRates {
    /// Returns the number of ports.
    pub fn count(self) -> usize
        ensures { result ≡ count self }
    {
        match self {
            PortRates::Every { ports, .. } | PortRates::InTurn { ports, .. } => ports,
        }
    }

    /// Returns the number of samples that a firing at `phase` moves at `port`.
    pub fn moved(self, port: usize, phase: u32) -> u32
        ensures { result ≡ moved self port phase }
    {
        match self {
            PortRates::Every { rate, .. } => rate,
            PortRates::InTurn { rate, .. } if port == phase as usize => rate,
            PortRates::InTurn { .. } => 0,
        }
    }
}

/// The ports of an actor, and the number of phases in its cycle.
#[derive(Clone, Copy)]
pub struct Ports {
    pub cycle: u32,
    pub inputs: PortRates,
    pub outputs: PortRates,
}

impl Ports {
    /// Returns ports with one rate in every firing: `take` at each of `inputs` ports, `put` at each of `outputs`.
    pub fn steady(inputs: usize, take: u32, outputs: usize, put: u32) -> Ports
        ensures { result ≡ steady inputs take outputs put }
    {
        Ports {
            cycle: 1,
            inputs: PortRates::Every {
                ports: inputs,
                rate: take,
            },
            outputs: PortRates::Every {
                ports: outputs,
                rate: put,
            },
        }
    }
}
