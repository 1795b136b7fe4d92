//! Small nets, lists of samples, tables, and runs whose outputs are compared as texts.

ghost use Rattle.std.specs.Prelude.{◌≡◌, ◌*◌, ◌<◌, IfOk};
ghost use Rattle.sdf_graph.specs.Rates.{rates};
ghost use Rattle.sdf_sched.specs.Period.{IsPeriodOf};
ghost use Rattle.sdf_actor.specs.Graphs.{graph_of};
ghost use Rattle.sdf_prec.specs.BlockTables.{IsBlockTableOf};

use sdf_actor::{Actor, Link, Net, Node};
use sdf_node::Gate;
use sdf_prec::hu::hu;
use sdf_prec::{BlockTable, Columns, Costs, Table};
use sdf_run::{Mode, Ran, RunFault, Session, Workers, run_one, run_rings, run_rows};
use sdf_sched::class_s::class_s;
use sdf_sched::{Period, Round};
use std::alloc::{AllocError, Global};
use std::test::Fail;
use std::thread::Threads;
use test_actors::Sum;
use test_actors::gates::Watch;
use test_actors::nets::{links, sink, source};
use test_texts::says;

/// Returns a list whose only element is `samples`.
pub(crate) fn one_list<T: Drop>(alloc: Global, samples: Vec<T>) -> Result<Vec<Vec<T>>, AllocError> {
    let mut lists = Vec::new(alloc);
    lists.push(samples)?;
    Ok(lists)
}

/// Returns one list, with a copy of `samples`.
pub(crate) fn list<T: Copy>(alloc: Global, samples: &[T]) -> Result<Vec<Vec<T>>, AllocError> {
    one_list(alloc, Vec::from_slice(alloc, samples)?)
}

/// Returns one list: the numbers of `from..to`, then `zeros` zeros.
pub(crate) fn ramp(
    alloc: Global,
    from: i32,
    to: i32,
    zeros: usize,
) -> Result<Vec<Vec<i32>>, AllocError> {
    let mut samples = Vec::new(alloc);
    for sample in from..to {
        samples.push(sample)?;
    }
    for _ in 0..zeros {
        samples.push(0)?;
    }
    one_list(alloc, samples)
}

/// Returns the length of each list.
pub(crate) fn lengths<T>(alloc: Global, lists: &[Vec<T>]) -> Result<Vec<usize>, AllocError> {
    let mut lengths = Vec::new(alloc);
    for list in lists {
        lengths.push(list.len())?;
    }
    Ok(lengths)
}

/// Returns links between `ends`, of which link `number` begins with the samples `initial`.
pub(crate) fn begun<T: Copy>(
    alloc: Global,
    ends: &[[usize; 4]],
    number: usize,
    initial: &[T],
) -> Result<Vec<Link<T>>, AllocError> {
    let mut links = links(alloc, ends)?;
    if let Some(link) = links.get_mut(number) {
        link.initial.extend_from_slice(initial)?;
    }
    Ok(links)
}

/// Returns a source of `block` samples and a sink of `taken`, with a channel between them that begins with `initial`.
pub(crate) fn pair(
    alloc: Global,
    block: u32,
    taken: u32,
    initial: &[i64],
) -> Result<Net<Sum>, Fail> {
    let nodes = Vec::from_array(alloc, [source(0, block), sink(0, taken)])?;
    Ok(Net::new(alloc, nodes, begun(alloc, &[[0, 0, 1, 0]], 0, initial)?)?)
}

/// Returns a chain of a source, `actor` and a sink.
pub(crate) fn chain<A: Actor>(alloc: Global, actor: A) -> Result<Net<A>, Fail> {
    let mut nodes = Vec::new(alloc);
    nodes.push(source(0, 1))?;
    nodes.push(Node::Inner(actor))?;
    nodes.push(sink(0, 1))?;
    Ok(Net::new(alloc, nodes, links(alloc, &[[0, 0, 1, 0], [1, 0, 2, 0]])?)?)
}

/// Returns a chain of a source, two sums and a sink. The channel between the sums begins with five zeros.
pub(crate) fn two_sums(alloc: Global) -> Result<Net<Sum>, Fail> {
    let sums = [source(0, 3), Node::Inner(Sum), Node::Inner(Sum), sink(0, 2)];
    let nodes = Vec::from_array(alloc, sums)?;
    let ends = [[0, 0, 1, 0], [1, 0, 2, 0], [2, 0, 3, 0]];
    Ok(Net::new(alloc, nodes, begun(alloc, &ends, 1, &[0; 5])?)?)
}

/// Returns a schedule of `net`, and a table by Hu's rule for `j` periods on `m` workers, free or with a home for each
/// node.
pub(crate) fn planned<A: Actor>(
    alloc: Global,
    net: &Net<A>,
    j: u32,
    m: usize,
    homed: bool,
) -> Result<BlockTable, Fail>
    ensures fits { IfOk result (IsBlockTableOf (rates (graph_of A.steps net.now))) }
    ensures blocking { IfOk result (λ table. table.blocking ≡ j) }
{
    let period = class_s(alloc, net.graph(), net.repetitions(), &mut Round::new())?;
    let costs = Costs::unit(alloc, net.graph())?;
    let team = Columns { workers: m, homed };
    let table = hu(alloc, net.graph(), &period, j, team, &costs)?;
    Ok(BlockTable {
        period,
        blocking: j,
        table,
    })
}

/// Returns a schedule of `net`, and a table for two periods on three workers. All firings are on processor `home`, and
/// each node fires in runs.
pub(crate) fn in_runs<A: Actor>(
    alloc: Global,
    net: &Net<A>,
    home: usize,
) -> Result<BlockTable, Fail>
    ensures fits { IfOk result (IsBlockTableOf (rates (graph_of A.steps net.now))) }
    ensures blocking { IfOk result (λ table. table.blocking ≡ 2) }
{
    let period = class_s(alloc, net.graph(), net.repetitions(), &mut Round::new())?;
    let homes = vec![in alloc; Some(home); net.len()]?;
    let table = Table::by_homes_in_runs(alloc, net.graph(), &period, 2, 3, &homes)?;
    Ok(BlockTable {
        period,
        blocking: 2,
        table,
    })
}

/// The number of blocks for which a table is run, and how.
#[derive(Clone, Copy)]
pub(crate) struct Times {
    pub(crate) blocks: u32,
    pub(crate) mode: Mode,
}

/// Runs `table` by rows or over rings, as `times` says, with `gate`.
pub(crate) fn run_by<R: Threads + AllocGlobal + Sync, A: Actor, G: Gate>(
    rt: &R,
    net: &Net<A>,
    table: &BlockTable,
    times: Times,
    inputs: &[Vec<A::Token>],
    gate: &G,
) -> Result<Ran<A::Token>, RunFault>
    requires fits { IsBlockTableOf (rates (graph_of A.steps net.now)) table.now }
{
    let Times { blocks, mode } = times;
    match mode {
        Mode::Rows => run_rows(rt, net, table, blocks, inputs, gate),
        Mode::Rings { patience } => {
            let workers = Workers { rt, gate, patience };
            run_rings(workers, net, table, blocks, inputs)
        }
    }
}

/// Feeds `inputs` to a session twice, with the gate `watch`. Each feed numbers its firings from 0.
pub(crate) fn feed_twice<R: Threads + AllocGlobal + Sync, A: Actor>(
    rt: &R,
    net: &Net<A>,
    table: &BlockTable,
    mode: Mode,
    inputs: &[Vec<A::Token>],
    watch: &Watch,
) -> Result<(), RunFault>
    requires fits { IsBlockTableOf (rates (graph_of A.steps net.now)) table.now }
{
    let mut session = Session::open(rt.alloc(), net, table, mode)?;
    session.feed(rt, inputs, watch)?;
    watch.anew();
    session.feed(rt, inputs, watch)?;
    Ok(())
}

/// Returns the outputs of `periods` periods on one thread, as text.
pub(crate) fn by_one<A: Actor<Token = i32>>(
    alloc: Global,
    net: &Net<A>,
    period: &Period,
    periods: u32,
    inputs: &[Vec<i32>],
) -> Result<String, Fail>
    requires { IsPeriodOf (rates (graph_of A.steps net.now)) period.now }
{
    let ran = run_one(alloc, net, period, periods, inputs)?;
    Ok(format!(in alloc; "{:?}", ran.outputs)?)
}

/// Returns the outputs of a run by workers, as text. If the rounds over rings are none or more than the firings, it
/// returns their number instead. By rows the table fixes the rounds.
fn by_workers<R: Threads + AllocGlobal + Sync, A: Actor<Token = i32>, G: Gate>(
    rt: &R,
    net: &Net<A>,
    table: &BlockTable,
    times: Times,
    inputs: &[Vec<i32>],
    gate: &G,
) -> Result<String, Fail>
    requires fits { IsBlockTableOf (rates (graph_of A.steps net.now)) table.now }
{
    let ran = run_by(rt, net, table, times, inputs, gate)?;
    let periods = u64::from(table.blocking).wrapping_mul(u64::from(times.blocks));
    let firings = periods.wrapping_mul(table.period.order().len() as u64);
    let few = 1 <= ran.rounds && ran.rounds <= firings;
    if few || matches!(times.mode, Mode::Rows) {
        return Ok(format!(in rt.alloc(); "{:?}", ran.outputs)?);
    }
    Ok(format!(in rt.alloc(); "{} rounds", ran.rounds)?)
}

/// Checks that workers make what one thread makes.
pub(crate) fn make_as_one<R: Threads + AllocGlobal + Sync, A: Actor<Token = i32>, G: Gate>(
    rt: &R,
    net: &Net<A>,
    table: &BlockTable,
    times: Times,
    inputs: &[Vec<i32>],
    gate: &G,
) -> Result<(), Fail>
    requires fits { IsBlockTableOf (rates (graph_of A.steps net.now)) table.now }
{
    let periods = table.blocking.wrapping_mul(times.blocks);
    let one = by_one(rt.alloc(), net, &table.period, periods, inputs)?;
    says(
        by_workers(rt, net, table, times, inputs, gate),
        one.as_str(),
    )
}
