// The time table.
ghost use Rattle.std.specs.Prelude.{ℕ, ◌<◌, ◌^◌};
ghost use Rattle.lists.specs.Front.{at};
ghost use Rattle.firing.specs.Times.{Ordered, Tabled};

use crate::walk::walk_copy;
use chain::Round;

// The start of every copy of a round that can be fired in the order of the list. One step for each copy, and at most one for each queue out of it.
pub fn time_table(
    round: &Round,
    time: &[u16; 32],
    delay: &[u32; 64],
    list: &[u16; 256],
) -> [u32; 256]
    requires { ((e : ℕ) → at delay.now e < 2 ^ 30) × Ordered round.now.chain.n round.now.chain.m round.now.chain.source round.now.chain.sink round.now.chain.produced round.now.chain.consumed delay.now time.now round.now.q round.now.total list.now }
    ensures { Tabled round.now.chain.n round.now.chain.m round.now.chain.source round.now.chain.sink round.now.chain.produced round.now.chain.consumed delay.now time.now round.now.q round.now.total result }
{
    let mut table = [0u32; 256];
    let mut fired = [0u32; 32];
    for station in &list[..round.total] {
        let v = usize::from(*station);
        let copy = fired[v];
        walk_copy(round, time, delay, v, copy, &mut table);
        fired[v] = copy + 1;
    }
    table
}
