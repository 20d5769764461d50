// The growing of a tree over all stations, from station 0 by the lowest queue that leads to one more.
ghost use Rattle.std.specs.Prelude.{◌≡◌, ◌<◌, ◌⊎◌};
ghost use Rattle.lists.specs.Front.{at};
ghost use Rattle.counts.specs.Joining.{AllJoined};
ghost use Rattle.balance.specs.Tree.{Sees, Grown};

use crate::way::{Step, Tree};
use chain::Chain;

// A queue as a station at one of its ends sees it: the station at its other end, and both rates.
#[derive(Drop)]
struct Seen {
    station: usize,
    near: u16,
    far: u16,
}

// Queue k, which is no self-queue, as the station sees it. A fixed number of steps.
fn sees(chain: &Chain, k: usize, station: usize) -> Seen
    requires queue { k < chain.now.m }
    requires apart { at chain.now.source k ≡ at chain.now.sink k → ⊥ }
    requires end { (station ≡ at chain.now.source k) ⊎ (station ≡ at chain.now.sink k) }
    ensures { Sees chain.now.source chain.now.sink chain.now.produced chain.now.consumed k station result }
{
    let u = usize::from(chain.source[k]);
    let v = usize::from(chain.sink[k]);
    if u == station {
        Seen {
            station: v,
            near: chain.produced[k],
            far: chain.consumed[k],
        }
    } else {
        Seen {
            station: u,
            near: chain.consumed[k],
            far: chain.produced[k],
        }
    }
}

// Station 0 has place 0, and one station after the other is reached. One that isn't yet has 32, beyond all places; nothing tests for it,
// and an Option would have to be unwrapped at each place that is read. At most n - 1 scans of m queues.
pub(crate) fn reach(chain: &Chain) -> Tree
    requires { AllJoined chain.now.n chain.now.m chain.now.source chain.now.sink }
    ensures { Grown chain.now.n chain.now.source chain.now.sink chain.now.produced chain.now.consumed result.place result.steps }
{
    let mut marked = [false; 32];
    let mut place = [32; 32];
    let mut steps = [Step {
        up: 0,
        near: 1,
        far: 1,
    }; 32];
    marked[0] = true;
    place[0] = 0;
    for count in 1..chain.n {
        let crossed = counts::lowest_crossing(
            chain.m,
            &chain.source,
            &chain.sink,
            &marked,
        ).unwrap();
        let v = crossed.station;
        let Seen { station, near, far } = sees(chain, crossed.queue, v);
        steps[count] = Step {
            up: place[station],
            near,
            far,
        };
        place[v] = count;
        marked[v] = true;
    }
    Tree { place, steps }
}
