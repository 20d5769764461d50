// A chain of stations.
ghost use Rattle.chain.specs.Chain.{ChainFits};
ghost use Rattle.chain.specs.Thread.{Threads};

use crate::thread::{Threaded, threads};

// n stations and m queues: for each queue the stations at its ends and its rates, and threads through the queues into each station and out of it. Columns of a fixed length, as in a sheet:
// there is no heap.
#[derive(Clone, Copy)]
pub struct Chain {
    pub n: usize,
    pub m: usize,
    pub source: [u16; 64],
    pub sink: [u16; 64],
    pub produced: [u16; 64],
    pub consumed: [u16; 64],
    pub into: Threaded,
    pub out: Threaded,
    pub ghost fits: { ChainFits n m source sink produced consumed },
    pub ghost enters: { Threads n m sink into.head into.next },
    pub ghost leaves: { Threads n m source out.head out.next },
}

impl Chain {
    ghost use Rattle.chain.specs.Made.{HasColumns};

    // Threads the queues of these columns. Two passes over them.
    pub fn new(
        n: usize,
        m: usize,
        source: &[u16; 64],
        sink: &[u16; 64],
        produced: &[u16; 64],
        consumed: &[u16; 64],
    ) -> Chain
        requires { ChainFits n m source.now sink.now produced.now consumed.now }
        ensures { HasColumns result n m source.now sink.now produced.now consumed.now }
    {
        Chain {
            n,
            m,
            source: *source,
            sink: *sink,
            produced: *produced,
            consumed: *consumed,
            into: threads(n, m, sink),
            out: threads(n, m, source),
        }
    }
}
