// The lists of a plan and its time table, written to lent buffers.
ghost use Rattle.std.specs.Prelude.{◌≤◌, length, ◌≡◌};
ghost use Rattle.lists.specs.Front.{at, front};
ghost use Rattle.planner.specs.Lists.{Fireable, Completes, Written};

use chain::Chain;

// Writes a list that can be completed over the first entries of a lent one, which may be longer (`Written`), firing by firing.
pub(crate) fn write_list(
    chain: &Chain,
    total: usize,
    delay: &[u32; 64],
    wanted: &[u32; 32],
    list: &mut [u16],
)
    requires { Fireable chain.now.n delay.now wanted.now total × ((total ≤ length list.old) × Completes chain.now.n chain.now.m chain.now.source chain.now.sink chain.now.produced chain.now.consumed delay.now wanted.now) }
    ensures { Written chain.now.n chain.now.m chain.now.source chain.now.sink chain.now.produced chain.now.consumed delay.now wanted.now list.old list.new }
{
    firing::fire_list(chain, total, delay, wanted, list);
}

// Writes the time table, which stands in the first entries of a column for any round, over the first entries. One pass over it.
pub(crate) fn write_times(total: usize, table: &[u32; 256], times: &mut [u32])
    requires { (total ≤ 256) × (total ≤ length times.old) }
    ensures { times.new ≡ front total (at table.now) times.old }
{
    times[..total].copy_from_slice(&table[..total]);
}
