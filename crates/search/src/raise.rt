// What a raise changes: the delays and the retiming.
ghost use Rattle.std.specs.Prelude.{ℕ, ◌≤◌, ◌<◌};
ghost use Rattle.lists.specs.Front.{at};
ghost use Rattle.search.specs.Raise.{DelaysFit, NewDelays, Raised};

use chain::Chain;

// The delays after every station rose by its late copies. One step and two products for each queue.
pub(crate) fn new_delays(chain: &Chain, late: &[u32; 32], delay: &[u32; 64]) -> [u32; 64]
    requires { DelaysFit chain.now.m chain.now.source chain.now.sink chain.now.produced chain.now.consumed late.now delay.now }
    ensures { NewDelays chain.now.m chain.now.source chain.now.sink chain.now.produced chain.now.consumed late.now delay.now result }
{
    let mut new = [0u32; 64];
    // By place, as in `chain::widen`; and `from_fn` would need a test for the entries that stay 0.
    for e in 0..chain.m {
        let taken = u32::from(chain.consumed[e]) * late[usize::from(chain.sink[e])];
        let made = u32::from(chain.produced[e]) * late[usize::from(chain.source[e])];
        new[e] = delay[e] + taken - made;
    }
    new
}

// The retiming after every station rose by its late copies. One step for each station.
pub(crate) fn raised(n: usize, late: &[u32; 32], retiming: &[u32; 32]) -> [u32; 32]
    requires { (n ≤ 32) × ((v : ℕ) → v < n → (at retiming.now v ≤ 65536) × (at late.now v ≤ 65536)) }
    ensures { Raised n late.now retiming.now result }
{
    let mut new = [0u32; 32];
    // By place, as in `chain::widen`; and `from_fn` would need a test for the entries that stay 0.
    for v in 0..n {
        new[v] = retiming[v] + late[v];
    }
    new
}
