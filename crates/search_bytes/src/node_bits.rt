// The bits of a node, pushed. A node has its latest bit and the node before it, and a builder gets the first bit first: so up to 64 bits become a
// number, from which they are pushed.
ghost use Rattle.std.specs.Prelude.{◌≡◌, ◌+◌, ◌≤◌, length};
ghost use Rattle.words.specs.Words.{at, WORK};
ghost use Rattle.work_layout.specs.Layout.{LENS};
ghost use Rattle.search_list.specs.State.{node_bits, Chain};
ghost use Rattle.search_bytes.specs.Built.{Taken, Holds, Fits};

use crate::push_number::push_number;
use path_builder::PathBuilder;

// The latest bits of a node as a number, the first of them lowest, and the node that has those before them.
#[derive(Clone, Copy, Debug, PartialEq, Eq)]
struct TakenBits {
    number: u64,
    before: usize,
}

// The latest `count` bits of node a.
fn take_bits(work: &[u32], a: usize, count: usize) -> TakenBits
    requires { (WORK ≤ length work.now) × (Chain work.now a) × (count ≤ length (node_bits work.now a)) × (count ≤ 64) }
    ensures { Taken work.now a count result }
{
    let mut number = 0;
    let mut node = a;
    for _ in 0..count {
        number = number * 2 + u64::from(work[work_layout::NODES + node] % 2);
        node = work[work_layout::PREVS + node] as usize;
    }
    TakenBits {
        number,
        before: node,
    }
}

// The n bits of node a: those before the latest, which are a multiple of 64, and then the latest.
fn push_long(work: &[u32], a: usize, n: usize, store: &mut [u8]) -> PathBuilder
    requires { (WORK ≤ length work.now) × (Chain work.now a) × (n ≡ length (node_bits work.now a)) × (Fits store.old n) }
    ensures { Holds store.new result (node_bits work.now a) }
{
    if n == 0 {
        return PathBuilder::new();
    }
    let count = (n - 1) % 64 + 1;
    let latest = take_bits(work, a, count);
    let first = push_long(work, latest.before, n - count, store);
    push_number(store, first, latest.number, count)
}

// The bits of node a. Most paths are short: up to 64 bits go without the call of `push_long`.
pub fn push_node(work: &[u32], a: usize, store: &mut [u8]) -> PathBuilder
    requires in_bounds { (WORK ≤ length work.now) × (Chain work.now a) × (at work.now (LENS + a) ≡ length (node_bits work.now a)) }
    requires fits { Fits store.old (length (node_bits work.now a)) }
    ensures { Holds store.new result (node_bits work.now a) }
{
    let n = search_list::len_of(work, a);
    if n <= 64 {
        let all = take_bits(work, a, n);
        return push_number(store, PathBuilder::new(), all.number, n);
    }
    let long = push_long(work, a, n, store);
    PathBuilder {
        in_use: long.in_use,
        bit_pos: long.bit_pos,
    }
}
