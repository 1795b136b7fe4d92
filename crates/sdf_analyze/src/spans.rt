//! The spans of a design's blocks.

ghost use Rattle.std.specs.Prelude.{◌≡◌, ◌++◌, ◌∷◌, [], slice_index, MatchResult, IfSome};
ghost use Rattle.std.specs.List.{Contains};
ghost use Rattle.sdf_sched.specs.Period.{IsPeriodOf};
ghost use Rattle.sdf_prec.specs.Blocks.{IsShort};
ghost use Rattle.sdf_prec.specs.declared.fault.PrecFault.TheVariants.{OutOfMemory};
ghost use Rattle.sdf_times.specs.Times.{IsSpan};
ghost use Rattle.sdf_plan.specs.Placements.{rates_of, firings_of};
ghost use Rattle.sdf_analyze.specs.Spans.{AreSpans};

use sdf_file::Design;
use sdf_plan::costs::firing_costs;
use sdf_prec::PrecFault;
use sdf_sched::Period;
use sdf_times::span;
use std::alloc::{AllocError, Global};

/// The number of periods of a block, and its span.
#[derive(Clone, Copy)]
pub(crate) struct BlockSpan {
    pub(crate) blocking: u32,
    pub(crate) span: u64,
}

/// Returns the span of a design's block of `blocking` periods. The only fault is that memory was refused.
pub(crate) fn block_span(
    alloc: Global,
    design: &Design,
    blocking: u32,
    period: &Period,
) -> Result<u64, PrecFault>
    requires period { IsPeriodOf (rates_of design.now) period.now }
    requires short { IsShort blocking period.now.repetitions }
    ensures { MatchResult result
        (IsSpan (rates_of design.now) (firings_of blocking period.now) (slice_index design.now.costs))
        (λ fault. fault ≡ OutOfMemory) }
{
    let graph = design.net().graph();
    let costs = firing_costs(alloc, design)?;
    span(alloc, graph, period, blocking, &costs)
}

/// Returns the span of a block of `blocking` periods if it is known. No clause says that a known one is found.
fn known_span(known: &[BlockSpan], blocking: u32) -> Option<u64>
    ensures { IfSome result (λ span. Contains known.now (record { blocking = blocking; span = span })) }
{
    for block in known {
        if block.blocking == blocking {
            return Some(block.span);
        }
    }
    None
}

/// Adds `block` to the spans that are known.
fn keep(known: &mut Vec<BlockSpan>, block: BlockSpan) -> Result<(), AllocError>
    ensures { MatchResult result (λ _. known.new.items ≡ known.old.items ++ block ∷ [])
        (λ _. known.new.items ≡ known.old.items) }
{
    known.push(block)?;
    Ok(())
}

/// Returns a block's span, and works it out only if it is not known yet.
pub(crate) fn span_once(
    alloc: Global,
    design: &Design,
    known: &mut Vec<BlockSpan>,
    blocking: u32,
    period: &Period,
) -> Result<u64, PrecFault>
    requires period { IsPeriodOf (rates_of design.now) period.now }
    requires short { IsShort blocking period.now.repetitions }
    requires known { AreSpans design.now known.old.items }
    ensures known { AreSpans design.now known.new.items }
    ensures span { MatchResult result
        (IsSpan (rates_of design.now) (firings_of blocking period.now) (slice_index design.now.costs))
        (λ fault. fault ≡ OutOfMemory) }
{
    if let Some(span) = known_span(known, blocking) {
        return Ok(span);
    }
    let span = block_span(alloc, design, blocking, period)?;
    keep(known, BlockSpan { blocking, span })?;
    Ok(span)
}
