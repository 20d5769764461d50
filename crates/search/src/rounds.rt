// The search.
ghost use Rattle.chain.specs.Chain.{DelaysGiven};
ghost use Rattle.firing.specs.Times.{Ordered};
ghost use Rattle.search.specs.Found.{Searches};

use crate::Found;
use crate::order::reorder;
use crate::raise::{new_delays, raised};
use chain::Round;

// Raises every station at once by its late copies until none is late, from an order in which the round can be fired. At most N time tables; with N of
// them late nothing serves.
pub fn search(
    round: &Round,
    delay: &[u32; 64],
    time: &[u16; 32],
    target: u32,
    list: &[u16; 256],
) -> Option<Found>
    requires { DelaysGiven round.now.chain.m delay.now × Ordered round.now.chain.n round.now.chain.m round.now.chain.source round.now.chain.sink round.now.chain.produced round.now.chain.consumed delay.now time.now round.now.q round.now.total list.now }
    ensures { Searches round.now.chain.n round.now.chain.m round.now.chain.source round.now.chain.sink round.now.chain.produced round.now.chain.consumed delay.now time.now round.now.q round.now.total target result }
{
    let n = round.chain.n;
    let mut retiming = [0u32; 32];
    let mut current = *delay;
    let mut order = *list;
    for rounds in 0..round.total {
        let table = firing::time_table(round, time, &current, &order);
        let period = firing::latest_end(n, &round.q, &round.base, time, &table);
        if period <= target {
            let found = Found {
                rounds,
                period,
                retiming,
                delay: current,
                table,
            };
            return Some(found);
        }
        let late = firing::late_counts(n, &round.q, &round.base, time, target, &table);
        order = reorder(round, &late, &order);
        current = new_delays(&round.chain, &late, &current);
        retiming = raised(n, &late, &retiming);
    }
    None
}
