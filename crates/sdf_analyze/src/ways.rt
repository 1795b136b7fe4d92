//! The schedules that are compared.

ghost use Rattle.std.specs.Prelude.{◌≡◌, ◌++◌, IfOk};
ghost use Rattle.std.specs.List.{All};
ghost use Rattle.sdf_analyze.specs.Ways.{ways_placed, ways_by, ways};

use sdf_options::{Options, Placement, Policy};
use std::alloc::{AllocError, Global};

/// Adds the options with `policy` and `placement`, for 1, 2, 4, .. workers.
fn push_placed(
    ways: &mut Vec<Options>,
    options: &Options,
    policy: Policy,
    placement: Placement,
) -> Result<(), AllocError>
    ensures { IfOk result (λ _. ways.new.items ≡ ways.old.items ++ ways_placed options.now policy placement) }
{
    for workers in [1, 2, 4, 8, 16] {
        if workers <= options.workers {
            ways.push(Options {
                policy,
                placement,
                workers,
                ..*options
            })?;
        }
    }
    Ok(())
}

/// Adds the options with `policy` and each placement.
fn push_policy(ways: &mut Vec<Options>, options: &Options, policy: Policy) -> Result<(), AllocError>
    ensures { IfOk result (λ _. ways.new.items ≡ ways.old.items ++ ways_by options.now policy) }
{
    push_placed(ways, options, policy, Placement::Hu)?;
    push_placed(ways, options, policy, Placement::Homed)?;
    push_placed(ways, options, policy, Placement::File)?;
    push_placed(ways, options, policy, Placement::Spread)
}

/// Returns `options` with each policy, each placement, and 1, 2, 4, .. workers up to theirs.
pub(crate) fn ways(alloc: Global, options: &Options) -> Result<Vec<Options>, AllocError>
    ensures { IfOk result (λ v. v.items ≡ ways options.now) }
{
    let mut ways = Vec::new(alloc);
    push_policy(&mut ways, options, Policy::Round)?;
    push_policy(&mut ways, options, Policy::Lean)?;
    push_policy(&mut ways, options, Policy::Runs)?;
    Ok(ways)
}
