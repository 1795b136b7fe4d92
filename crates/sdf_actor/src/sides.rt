//! The sides of a node and of a net.

use std::fmt;

/// A side of a node: its input ports or its output ports.
#[derive(Clone, Copy, Debug, PartialEq, Eq)]
pub enum Side {
    Input,
    Output,
}

impl fmt::Display for Side {
    fn fmt<W: fmt::Write>(&self, f: &mut fmt::Formatter<W>) -> fmt::Result {
        match self {
            Side::Input => write!(f, "input"),
            Side::Output => write!(f, "output"),
        }
    }
}

/// One sort of a net's sample lists: its sources read `Inputs`, its sinks make `Outputs`.
#[derive(Clone, Copy)]
pub enum Lists {
    Inputs,
    Outputs,
}
