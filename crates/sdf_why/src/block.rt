//! The line of `--why` for a block that is too long for a table.

ghost use Rattle.std.specs.Prelude.{◌≡◌, ◌++◌, OnOk, string_bytes};
ghost use Rattle.sdf_why.specs.Blocks.{firings_text, most_text, block_line};

use sdf_limits::MAX_BLOCK;
use std::alloc::AllocError;

/// Adds how many firings a period has.
#[tactic(auto, unfolding(crate::specs::Blocks::firings_text))]
fn push_firings(text: &mut String, firings: u32) -> Result<(), AllocError>
    ensures { OnOk result (string_bytes text.new ≡ string_bytes text.old ++ firings_text firings) }
{
    write!(text, "  a period has {firings} firings")?;
    Ok(())
}

/// Adds how many periods a block can have.
#[tactic(auto, unfolding(crate::specs::Blocks::most_text))]
fn push_most(text: &mut String, periods: u64) -> Result<(), AllocError>
    ensures { OnOk result (string_bytes text.new ≡ string_bytes text.old ++ most_text periods) }
{
    writeln!(text, ", so --blocking can be at most {periods}")?;
    Ok(())
}

/// Adds how many periods a block can have, if a period has `firings` firings.
#[tactic(auto, unfolding(crate::specs::Blocks::block_line))]
pub(crate) fn push_block(text: &mut String, firings: u32) -> Result<(), AllocError>
    ensures { OnOk result (string_bytes text.new ≡ string_bytes text.old ++ block_line firings) }
{
    push_firings(text, firings)?;
    push_most(text, MAX_BLOCK / u64::from(firings.max(1)))
}
