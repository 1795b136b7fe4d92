//! Nets of kit actors, for workers: the rate converter, and nets whose firings are held up by gates of the tests.

use sdf_actor::{Link, Net, Node};
use sdf_kit::{Kit, KitFault};
use std::alloc::{AllocError, Global};
use std::test::Fail;
use test_actors::nets::{links, sink, source};

/// A node: a source and its block, a sink with its output list and block, or a kit actor with its parameters. A block
/// is the samples of a firing.
#[derive(Clone, Copy)]
enum Part {
    In(u32),
    Out(u8, u32),
    Add(usize),
    Deal(usize, u32),
    Fork(usize),
    Gain(i32, u32),
    Gather(usize, u32),
    /// An FIR filter with these rates up and down. Its taps are ones; their number is the rate up.
    Ones(u32, u32),
}

use Part::{Add, Deal, Fork, Gain, Gather, In, Ones, Out};

fn inner(made: Result<Kit, KitFault>) -> Result<Node<Kit>, Fail> {
    Ok(Node::Inner(made?))
}

/// Returns an FIR filter whose taps are ones.
fn ones(alloc: Global, up: u32, down: u32) -> Result<Node<Kit>, Fail> {
    let taps = vec![in alloc; 1i32; up as usize]?;
    inner(Kit::fir(up, down, taps, 0))
}

fn kit(alloc: Global, part: Part) -> Result<Node<Kit>, Fail> {
    match part {
        In(block) => Ok(source(0, block)),
        Out(ext, block) => Ok(sink(ext, block)),
        Add(ways) => inner(Kit::add(ways)),
        Deal(ways, run) => inner(Kit::deal(ways, run)),
        Fork(ways) => inner(Kit::fork(ways)),
        Gain(amount, shift) => inner(Kit::gain(amount, shift)),
        Gather(ways, run) => inner(Kit::gather(ways, run)),
        Ones(up, down) => ones(alloc, up, down),
    }
}

fn nodes(alloc: Global, parts: &[Part]) -> Result<Vec<Node<Kit>>, Fail> {
    let mut nodes = Vec::new(alloc);
    for part in parts {
        nodes.push(kit(alloc, *part)?)?;
    }
    Ok(nodes)
}

/// Returns links between `ends`, which begin with the samples that `begun` gives by the number of their link.
fn begun_links(
    alloc: Global,
    ends: &[[usize; 4]],
    begun: &[(usize, &[i32])],
) -> Result<Vec<Link<i32>>, AllocError> {
    let mut links = links(alloc, ends)?;
    for (number, initial) in begun {
        if let Some(link) = links.get_mut(*number) {
            link.initial.extend_from_slice(initial)?;
        }
    }
    Ok(links)
}

/// Builds a net of `parts` with links between `ends`. `begun` gives initial samples by the number of their link.
fn joined(
    alloc: Global,
    parts: &[Part],
    ends: &[[usize; 4]],
    begun: &[(usize, &[i32])],
) -> Result<Net<Kit>, Fail> {
    let nodes = nodes(alloc, parts)?;
    Ok(Net::new(alloc, nodes, begun_links(alloc, ends, begun)?)?)
}

/// A source that puts two samples a firing, and a sink that takes three.
pub(crate) const BLOCKS: Worked = Worked::Pair(2, 3, &[]);

/// A source that puts one sample a firing, and a sink that takes one.
pub(crate) const PLAIN: Worked = Worked::Pair(1, 1, &[]);

/// The nets of kit actors.
#[derive(Clone, Copy)]
pub(crate) enum Worked {
    /// A source and a sink: the samples of their firings, and the initial samples of the link between them.
    Pair(u32, u32, &'static [i32]),
    /// A feedback loop: each output, negated, is added to the next input.
    Looped,
    /// Two samples a firing of the source, dealt in threes to two sinks. The dealing actor has two phases, so over
    /// rings its firings are not batched.
    Dealt,
    /// Samples are dealt in twos to a sink and to two loops, and the loops are gathered with the input. The loops begin
    /// with samples for two cycles, and one of them with a sample more. So both actors fire by cycles, and then stop
    /// between two phases.
    Turned,
    /// A fork and an adder, and the number of branches between them: gains that can fire from the start, actors 2 and
    /// up.
    Branches(usize),
    /// A fork and an adder with two branches between them, whose links begin empty.
    Forked,
    /// The rate converter from 147 samples to 160, in four stages.
    Converter,
    /// Each sample becomes 4,096 samples; these pass a gain one by one and become one again.
    Wide,
    /// The maximum numbers of actors and links: 64 and 256.
    Large,
}

impl Worked {
    pub(crate) fn net(self, alloc: Global) -> Result<Net<Kit>, Fail> {
        match self {
            Worked::Pair(put, taken, begun) => {
                let parts = [In(put), Out(0, taken)];
                joined(alloc, &parts, &[[0, 0, 1, 0]], &[(0, begun)])
            }
            Worked::Looped => joined(alloc, LOOPED, LOOPED_ENDS, &[(4, ZERO)]),
            Worked::Dealt => joined(alloc, DEALT, DEALT_ENDS, &[]),
            Worked::Turned => joined(alloc, TURNED, TURNED_ENDS, TURNED_BEGUN),
            Worked::Branches(ways) => branches(alloc, ways),
            Worked::Forked => joined(alloc, FORKED, FORKED_ENDS, &[]),
            Worked::Converter => joined(alloc, CONVERTER, CHAINED, &[]),
            Worked::Wide => joined(alloc, WIDE, WIDE_ENDS, &[]),
            Worked::Large => large(alloc),
        }
    }
}

const LOOPED: &[Part] = &[In(1), Add(2), Fork(2), Gain(-32_768, 15), Out(0, 1)];

const LOOPED_ENDS: &[[usize; 4]] = &[
    [0, 0, 1, 0],
    [1, 0, 2, 0],
    [2, 0, 4, 0],
    [2, 1, 3, 0],
    [3, 0, 1, 1],
];

const DEALT: &[Part] = &[In(2), Deal(2, 3), Out(0, 3), Out(1, 3)];

const DEALT_ENDS: &[[usize; 4]] = &[[0, 0, 1, 0], [1, 0, 2, 0], [1, 1, 3, 0]];

const TURNED: &[Part] = &[In(2), Gather(3, 2), Deal(3, 2), Out(0, 2)];

const TURNED_ENDS: &[[usize; 4]] = &[
    [0, 0, 1, 0],
    [1, 0, 2, 0],
    [2, 0, 3, 0],
    [2, 1, 1, 2],
    [2, 2, 1, 1],
];

const TURNED_BEGUN: &[(usize, &[i32])] = &[(3, &[-1, -2, -3, -4]), (4, &[-5, -6, -7, -8, -9])];

const FORKED: &[Part] = &[In(1), Fork(2), Gain(1, 0), Gain(1, 0), Add(2), Out(0, 1)];

const FORKED_ENDS: &[[usize; 4]] = &[
    [0, 0, 1, 0],
    [1, 0, 2, 0],
    [1, 1, 3, 0],
    [2, 0, 4, 0],
    [3, 0, 4, 1],
    [4, 0, 5, 0],
];

const CONVERTER: &[Part] = &[
    In(1),
    Ones(2, 1),
    Ones(2, 3),
    Ones(8, 7),
    Ones(5, 7),
    Out(0, 1),
];

const CHAINED: &[[usize; 4]] = &[
    [0, 0, 1, 0],
    [1, 0, 2, 0],
    [2, 0, 3, 0],
    [3, 0, 4, 0],
    [4, 0, 5, 0],
];

const WIDE: &[Part] = &[
    In(1),
    Ones(64, 1),
    Ones(64, 1),
    Gain(1, 0),
    Ones(1, 64),
    Ones(1, 64),
    Out(0, 1),
];

const WIDE_ENDS: &[[usize; 4]] = &[
    [0, 0, 1, 0],
    [1, 0, 2, 0],
    [2, 0, 3, 0],
    [3, 0, 4, 0],
    [4, 0, 5, 0],
    [5, 0, 6, 0],
];

/// The initial samples of a link that begins with one zero.
const ZERO: &[i32] = &[0];

/// Parts, and the links between them.
#[derive(Drop)]
struct Layout {
    parts: Vec<Part>,
    ends: Vec<[usize; 4]>,
}

/// Adds the branches from a fork, which is node 1, to `adder`.
fn add_branches(layout: &mut Layout, adder: usize) -> Result<(), AllocError> {
    for branch in 2..adder {
        let way = branch - 2;
        layout.parts.push(Gain(1, 0))?;
        layout
            .ends
            .extend_from_slice(&[[1, way, branch, 0], [branch, 0, adder, way]])?;
    }
    Ok(())
}

/// Returns a zero for each of `ways` branches, on the link in.
fn zeros(alloc: Global, ways: usize) -> Result<Vec<(usize, &'static [i32])>, AllocError> {
    let mut begun = Vec::new(alloc);
    for way in 0..ways {
        begun.push((way.wrapping_mul(2), ZERO))?;
    }
    Ok(begun)
}

/// Returns the layout of a source, a fork, `ways` branches, an adder and a sink. Each branch has a link in and a link
/// out. The links from the source and to the sink are the last.
fn branched(alloc: Global, ways: usize) -> Result<Layout, AllocError> {
    let adder = ways.wrapping_add(2);
    let mut layout = Layout {
        parts: Vec::from_slice(alloc, &[In(1), Fork(ways)])?,
        ends: Vec::new(alloc),
    };
    add_branches(&mut layout, adder)?;
    layout.parts.extend_from_slice(&[Add(ways), Out(0, 1)])?;
    let last = [[0, 0, 1, 0], [adder, 0, adder.wrapping_add(1), 0]];
    layout.ends.extend_from_slice(&last)?;
    Ok(layout)
}

/// Builds a fork and an adder with `ways` branches between them. The link in to each branch begins with a zero.
fn branches(alloc: Global, ways: usize) -> Result<Net<Kit>, Fail> {
    let layout = branched(alloc, ways)?;
    joined(alloc, &layout.parts, &layout.ends, &zeros(alloc, ways)?)
}

/// Adds thirteen pairs of a fork and an adder in a line. A pair is joined by 16 links, the maximum number of ports, and
/// the first pair by 14.
fn add_pairs(layout: &mut Layout) -> Result<(), AllocError> {
    for pair in 0..13usize {
        let fork = 2 * pair + 1;
        let ways = if pair == 0 { 14 } else { 16 };
        layout.parts.extend_from_slice(&[Fork(ways), Add(ways)])?;
        layout.ends.push([fork - 1, 0, fork, 0])?;
        for way in 0..ways {
            layout.ends.push([fork, way, fork + 1, way])?;
        }
    }
    Ok(())
}

/// Adds 36 gains in a line, which are nodes 27 to 62.
fn add_gains(layout: &mut Layout) -> Result<(), AllocError> {
    for gain in 27..63usize {
        layout.parts.push(Gain(1, 0))?;
        layout.ends.push([gain - 1, 0, gain, 0])?;
    }
    Ok(())
}

/// Builds thirteen pairs of a fork and an adder in a line, then 36 gains.
fn large(alloc: Global) -> Result<Net<Kit>, Fail> {
    let mut layout = Layout {
        parts: Vec::from_slice(alloc, &[In(1)])?,
        ends: Vec::new(alloc),
    };
    add_pairs(&mut layout)?;
    add_gains(&mut layout)?;
    layout.parts.push(Out(0, 1))?;
    layout.ends.push([62, 0, 63, 0])?;
    joined(alloc, &layout.parts, &layout.ends, &[])
}
