// A round of a chain.
ghost use Rattle.std.specs.Prelude.{◌≤◌};
ghost use Rattle.lists.specs.Front.{at};
ghost use Rattle.dataflow.specs.Counts.{sum};
ghost use Rattle.chain.specs.Bases.{Bases};
ghost use Rattle.chain.specs.Chain.{CountedChain};

use crate::chain::Chain;

// A chain with counts that balance it, their sum, and where the copies of each station begin in the time table. Columns of a fixed length: there is no heap.
#[derive(Clone, Copy)]
pub struct Round {
    pub chain: Chain,
    pub q: [u32; 32],
    pub total: usize,
    pub base: [u32; 33],
    pub ghost counted: { CountedChain chain.n chain.m chain.source chain.sink chain.produced chain.consumed q total },
    pub ghost begins: { Bases chain.n q base },
}

impl Round {
    ghost use Rattle.chain.specs.Made.{HasCounts};

    // One pass over the stations.
    pub fn new(chain: &Chain, q: &[u32; 32], total: usize) -> Round
        requires { CountedChain chain.now.n chain.now.m chain.now.source chain.now.sink chain.now.produced chain.now.consumed q.now total }
        ensures { HasCounts result chain.now q.now total }
    {
        Round {
            chain: *chain,
            q: *q,
            total,
            base: bases(chain.n, q),
        }
    }
}

// Where the copies of each station begin in the time table. One pass over the stations.
pub fn bases(n: usize, q: &[u32; 32]) -> [u32; 33]
    requires { (n ≤ 32) × (sum n (at q.now) ≤ 256) }
    ensures { Bases n q.now result }
{
    let mut base = [0u32; 33];
    // By place: each entry is made of the one before it.
    for v in 0..n {
        base[v + 1] = base[v] + q[v];
    }
    base
}
