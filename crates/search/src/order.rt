// The order in which a round can be fired after a raise, from an order before it.
ghost use Rattle.std.specs.Prelude.{ℕ, ◌+◌, ◌≤◌, ◌<◌, ◌≡◌, length, take};
ghost use Rattle.lists.specs.Front.{at};
ghost use Rattle.lists.specs.Put.{put};
ghost use Rattle.lists.specs.Test.{Tells};
ghost use Rattle.search.specs.Cut.{Between, Keeps, Gatherable, Cuttable, Reordered, between, none_fired};

use chain::Round;

// A function of its own, since `Tells` speaks of its answer.
fn is_between(low: u32, x: u32, high: u32) -> bool
    ensures { Tells result (Between low x high) }
{
    (low..high).contains(&x)
}

// The copies of each station that aren't late. n steps.
fn kept(n: usize, q: &[u32; 32], late: &[u32; 32]) -> [u32; 32]
    requires { (n ≤ 32) × ((v : ℕ) → v < n → at late.now v ≤ at q.now v) }
    ensures { Keeps n q.now late.now result }
{
    let mut keep = [0u32; 32];
    // By place, as in `chain::widen`; and `from_fn` would need a test for the entries that stay 0.
    for v in 0..n {
        keep[v] = q[v] - late[v];
    }
    keep
}

// Stores, from a place on, the entries of the list that are firings of their station from number low on and before number high. Hands back the place behind them.
// One step for each entry. The list has room for any round and holds one in its first entries: there is no heap.
fn gather(
    total: usize,
    low: &[u32; 32],
    high: &[u32; 32],
    list: &[u16; 256],
    from: usize,
    order: &mut [u16; 256],
) -> usize
    requires { Gatherable total low.now high.now list.now from order.old }
    ensures { (result ≡ from + length (between (at low.now) (at high.now) none_fired (take total list.now))) × (order.new ≡ put order.old from (between (at low.now) (at high.now) none_fired (take total list.now))) }
{
    let mut fired = [0u32; 32];
    let mut place = from;
    for station in &list[..total] {
        let v = usize::from(*station);
        if is_between(low[v], fired[v], high[v]) {
            order[place] = *station;
            place += 1;
        }
        fired[v] += 1;
    }
    place
}

// The late copies in the order of the list, then the others. Two steps for each copy.
pub(crate) fn reorder(round: &Round, late: &[u32; 32], list: &[u16; 256]) -> [u16; 256]
    requires { Cuttable round.now.chain.n round.now.total round.now.q late.now list.now }
    ensures { Reordered round.now.q late.now round.now.total list.now result }
{
    let none = [0u32; 32];
    let keep = kept(round.chain.n, &round.q, late);
    let mut order = [0u16; 256];
    let place = gather(round.total, &keep, &round.q, list, 0, &mut order);
    gather(round.total, &none, &keep, list, place, &mut order);
    order
}
