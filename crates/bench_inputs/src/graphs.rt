//! Texts of graph files.

use crate::chain::push_chain;
use crate::forms::{push_array, push_form};
use crate::long::{push_long, push_same};
use crate::numbers::Numbers;
use crate::staged::push_staged;
use std::alloc::{AllocError, Global};

/// Taps of a filter of a bank.
const TAPS: u32 = 1024;

/// The outputs of a bank.
const OUTPUTS: u32 = 4;

const BANK: &str = "
[[actor]]
name = \"in\"
kind = \"input\"
channel = 0

[[actor]]
name = \"split\"
kind = \"fork\"
ways = 4

[[link]]
from = \"in\"
to = \"split\"
";

/// An output that sums filters, and the fork that feeds them.
const SUM: &str = "
[[actor]]
name = \"out{0}\"
kind = \"output\"
channel = {0}

[[actor]]
name = \"half{0}\"
kind = \"fork\"
ways = {1}

[[actor]]
name = \"sum{0}\"
kind = \"add\"
ways = {1}

[[link]]
from = \"split:{0}\"
to = \"half{0}\"

[[link]]
from = \"sum{0}\"
to = \"out{0}\"
";

/// A filter between a fork and a sum.
const FILTER: &str = "
[[link]]
from = \"half{0}:{1}\"
to = \"f{0}-{1}\"

[[link]]
from = \"f{0}-{1}\"
to = \"sum{0}:{1}\"

[[actor]]
name = \"f{0}-{1}\"
kind = \"fir\"
shift = 15
taps = ";

const GATHERED: &str = "
[[actor]]
name = \"left\"
kind = \"input\"
channel = 0

[[actor]]
name = \"right\"
kind = \"input\"
channel = 1

[[actor]]
name = \"one\"
kind = \"gather\"
ways = 2

[[actor]]
name = \"two\"
kind = \"deal\"
ways = 2

[[actor]]
name = \"left-out\"
kind = \"output\"
channel = 0

[[actor]]
name = \"right-out\"
kind = \"output\"
channel = 1

[[actor]]
name = \"quieter\"
kind = \"gain\"
shift = 15
gain = {0}

[[link]]
from = \"left\"
to = \"one:0\"

[[link]]
from = \"right\"
to = \"one:1\"

[[link]]
from = \"one\"
to = \"quieter\"

[[link]]
from = \"quieter\"
to = \"two\"

[[link]]
from = \"two:0\"
to = \"left-out\"

[[link]]
from = \"two:1\"
to = \"right-out\"
";

/// A graph file that a seed makes.
#[derive(Clone, Copy)]
pub enum Graph {
    /// Filters of one input, of which each quarter is summed into an output.
    Bank { filters: u32 },
    /// Two channels that are gathered, made quieter and dealt out again.
    Gathered,
    /// A chain of gains, offsets, clips, tables and delays.
    Chain,
    /// Stages in random order, whose period has about `firings` firings.
    Staged { firings: u32 },
    /// A long table and a long initial list.
    Long,
    /// A chain of filters that name the same coefficient file.
    Same,
}

impl Graph {
    /// Returns the text of the graph file.
    pub fn text(self, alloc: Global, numbers: &mut Numbers) -> Result<String, AllocError> {
        let mut text = String::from_str(alloc, "format = 2\n")?;
        self.push(&mut text, numbers)?;
        Ok(text)
    }

    /// Adds the actors and the links.
    fn push(self, text: &mut String, numbers: &mut Numbers) -> Result<(), AllocError> {
        match self {
            Graph::Bank { filters } => push_bank(text, numbers, filters / OUTPUTS),
            Graph::Gathered => push_form(text, GATHERED, &[numbers.between(10_000, 30_000)]),
            Graph::Chain => push_chain(text, numbers),
            Graph::Staged { firings } => push_staged(text, numbers, firings),
            Graph::Long => push_long(text, numbers),
            Graph::Same => push_same(text),
        }
    }
}

/// Adds a bank with `each` filters for an output.
fn push_bank(text: &mut String, numbers: &mut Numbers, each: u32) -> Result<(), AllocError> {
    text.push_str(BANK)?;
    for group in 0..OUTPUTS {
        push_form(text, SUM, &[group, each])?;
        push_filters(text, numbers, group, each)?;
    }
    Ok(())
}

/// Adds `each` filters of random taps between a fork and a sum.
fn push_filters(
    text: &mut String,
    numbers: &mut Numbers,
    group: u32,
    each: u32,
) -> Result<(), AllocError> {
    for way in 0..each {
        push_form(text, FILTER, &[group, way])?;
        push_array(text, numbers, TAPS, 200)?;
    }
    Ok(())
}
