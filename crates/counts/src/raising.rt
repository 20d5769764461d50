// The smallest counts: 1 everywhere at first, and the short end of a queue is raised until every queue balances.
ghost use Rattle.std.specs.Prelude.{◌*◌, ◌≤◌, ◌<◌, ◌≡◌};
ghost use Rattle.lists.specs.Front.{at};
ghost use Rattle.lists.specs.Lowest.{FirstFailing};
ghost use Rattle.counts.specs.Raising.{Balanced, Small, Raises, Ones};
ghost use Rattle.counts.specs.Smallest.{Smallest};

use crate::Counted;
use chain::{Chain, rounded_up};

// A station, and the count that it is raised to.
#[derive(Drop)]
struct Rise {
    station: usize,
    count: u32,
}

// 1 for each of n stations. n steps.
fn ones(n: usize) -> [u32; 32]
    requires { n ≤ 32 }
    ensures { Ones n result }
{
    let mut q = [0; 32];
    q[..n].fill(1);
    q
}

// How many tokens the source of queue e makes, and how many its sink takes, while each fires as often as it counts.
// Two products.
fn moved(chain: &Chain, q: &[u32; 32], e: usize) -> (u32, u32)
    requires queue { e < chain.now.m }
    requires small { Small q.now }
    ensures made { result.0 ≡ at q.now (at chain.now.source e) * at chain.now.produced e }
    ensures taken { result.1 ≡ at q.now (at chain.now.sink e) * at chain.now.consumed e }
{
    let made = q[usize::from(chain.source[e])] * u32::from(chain.produced[e]);
    let taken = q[usize::from(chain.sink[e])] * u32::from(chain.consumed[e]);
    (made, taken)
}

// The lowest queue that doesn't balance. One scan of at most m queues.
fn lowest_unmet(chain: &Chain, q: &[u32; 32]) -> Option<usize>
    requires { Small q.now }
    ensures { FirstFailing (Balanced chain.now.source chain.now.sink chain.now.produced chain.now.consumed (at q.now)) chain.now.m result }
{
    (0..chain.m).find(|&e| {
        let (made, taken) = moved(chain, q, e);
        made != taken
    })
}

// The station at the short end of queue e, and the count that the other end asks of it.
// Two products and one division.
fn raise(chain: &Chain, q: &[u32; 32], e: usize) -> Rise
    requires queue { e < chain.now.m }
    requires small { Small q.now }
    requires unmet { Balanced chain.now.source chain.now.sink chain.now.produced chain.now.consumed (at q.now) e → ⊥ }
    ensures within { result.station < chain.now.n }
    ensures raised { Raises chain.now.source chain.now.sink chain.now.produced chain.now.consumed q.now e result.station result.count }
{
    let (made, taken) = moved(chain, q, e);
    if made < taken {
        Rise {
            station: usize::from(chain.source[e]),
            count: rounded_up(taken, u32::from(chain.produced[e])),
        }
    } else {
        Rise {
            station: usize::from(chain.sink[e]),
            count: rounded_up(made, u32::from(chain.consumed[e])),
        }
    }
}

// A raise leaves q at or below every vector that balances, so where the sum passes 256 none of them fits.
// At most 256 scans of m queues, each with one raise.
pub fn counts(chain: &Chain) -> Option<Counted>
    ensures { Smallest chain.now.n chain.now.m chain.now.source chain.now.sink chain.now.produced chain.now.consumed result }
{
    let mut q = ones(chain.n);
    let mut total = chain.n;
    while total <= 256 {
        let Some(e) = lowest_unmet(chain, &q) else {
            return Some(Counted { total, q });
        };
        let Rise { station, count } = raise(chain, &q, e);
        total = total + count as usize - q[station] as usize;
        q[station] = count;
    }
    None
}
