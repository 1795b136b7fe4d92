//! Graph files with long lists, and with filters of one coefficient file.

use crate::forms::{push_array, push_form};
use crate::numbers::Numbers;
use std::alloc::{AllocError, Global};

/// Values in a long list.
const MANY: u32 = 65_536;

/// How many filters name the same coefficient file.
const SAME: u32 = 32;

const TABLE: &str = "
[[actor]]
name = \"in\"
kind = \"input\"
channel = 0

[[actor]]
name = \"out\"
kind = \"output\"
channel = 0

[[link]]
from = \"table\"
to = \"out\"

[[actor]]
name = \"table\"
kind = \"table\"
offset = 32768
values = ";

const FIRST: &str = "
[[actor]]
name = \"f0\"
kind = \"input\"
channel = 0
";

/// A filter and the link to it.
const FILTER: &str = "
[[actor]]
name = \"f{1}\"
kind = \"fir\"
shift = 15
file = \"taps.toml\"
cost = 1

[[link]]
from = \"f{0}\"
to = \"f{1}\"
";

const LAST: &str = "
[[actor]]
name = \"out\"
kind = \"output\"
channel = 0
cost = 1

[[link]]
from = \"f32\"
to = \"out\"
";

/// Adds a long table and a long initial list.
pub(crate) fn push_long(text: &mut String, numbers: &mut Numbers) -> Result<(), AllocError> {
    text.push_str(TABLE)?;
    push_array(text, numbers, MANY, 32_767)?;
    text.push_str("\n[[link]]\nfrom = \"in\"\nto = \"table\"\ninitial = ")?;
    push_array(text, numbers, MANY, 32_767)
}

/// Adds a chain of filters that name the same file.
pub(crate) fn push_same(text: &mut String) -> Result<(), AllocError> {
    text.push_str(FIRST)?;
    for filter in 0..SAME {
        push_form(text, FILTER, &[filter, filter.saturating_add(1)])?;
    }
    text.push_str(LAST)
}

/// The name of the coefficient file that the filters of `Graph::Same` share.
pub const SAME_FILE: &str = "taps.toml";

/// Returns the text of their coefficient file.
pub fn same_taps(alloc: Global, numbers: &mut Numbers) -> Result<String, AllocError> {
    let mut text = String::from_str(alloc, "format = 1\nvalues = ")?;
    push_array(&mut text, numbers, 1024, 300)?;
    Ok(text)
}

/// Returns a cost for each actor of the chain.
pub fn same_costs(alloc: Global, numbers: &mut Numbers) -> Result<Vec<u32>, AllocError> {
    let mut costs = Vec::new(alloc);
    for _ in 0..SAME + 2 {
        costs.push(numbers.between(1, 1000))?;
    }
    Ok(costs)
}
