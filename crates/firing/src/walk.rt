// The forward walk: a copy hands its finish on by the first token that it puts on each queue.
ghost use Rattle.std.specs.Prelude.{◌≡◌, ◌+◌, ◌*◌, ◌≤◌, ◌<◌, ◌^◌, length};
ghost use Rattle.lists.specs.Test.{Tells};
ghost use Rattle.firing.specs.Walk.{Follows, Gives, Pushes, Walkable, Walks};

use chain::Round;

// Whether nothing later than the start of the copy before it was pushed into a copy, counted from 0, with this entry.
fn follows(copy: u32, entry: usize, table: &[u32; 256]) -> bool
    requires { (entry < 256) × (copy ≤ entry) }
    ensures { Tells result (Follows copy entry table.now) }
{
    if copy == 0 {
        return false;
    }
    let before = entry - 1;
    table[entry] <= table[before]
}

// The place on a queue of the first token that a copy, counted from 0, puts. One product.
fn first_token(delay: u32, copy: u32, produced: u32) -> u32
    requires { (delay < 2 ^ 30) × ((copy ≤ 256) × (produced ≤ 64)) }
    ensures { result ≡ delay + copy * produced }
{
    delay + copy * produced
}

// Gives a finish to the copy that takes this token, if it is one of the copies of this round, whose entries stand from here on. One division.
fn give(token: u32, consumed: u32, from: u32, count: u32, finish: u32, table: &mut [u32; 256])
    requires { (length table.old ≡ 256) × ((from + count ≤ 256) × ((1 ≤ consumed) × (consumed ≤ 64))) }
    ensures { Gives token consumed from count finish table.old table.new }
{
    if token < count * consumed {
        let entry = (from + token / consumed) as usize;
        if table[entry] < finish {
            table[entry] = finish;
        }
    }
}

// Pushes the finish of a copy of v into the copies of this round that take its first tokens. One step for each queue out of v.
#[tactic(auto, using(crate::proofs::PushLaws::placed, crate::proofs::PushLaws::few_copies))]
fn push(round: &Round, delay: &[u32; 64], v: usize, copy: u32, finish: u32, table: &mut [u32; 256])
    requires { Walkable round.now.chain.n delay.now round.now.q v copy table.old }
    ensures { Pushes round.now.chain.source round.now.chain.sink round.now.chain.produced round.now.chain.consumed delay.now round.now.q v copy finish round.now.chain.m table.old table.new }
{
    let chain = &round.chain;
    // Read once, since the search takes up to a sixth longer where this loop, which writes the table, reads m behind the reference each time.
    let m = chain.m;
    let mut e = usize::from(chain.out.head[v]);
    while e < m {
        let token = first_token(delay[e], copy, u32::from(chain.produced[e]));
        let w = usize::from(chain.sink[e]);
        give(
            token,
            u32::from(chain.consumed[e]),
            round.base[w],
            round.q[w],
            finish,
            table,
        );
        e = usize::from(chain.out.next[e]);
    }
}

// Finds the start of a copy of v, into which all that comes before it was pushed, and pushes its finish on. A copy that starts with the copy before it has nothing to push: that copy, or one
// that it started with, pushed the same finish, and into copies that are no later. One step, and at most one for each queue out of v.
#[tactic(auto, using(crate::proofs::PushLaws::placed))]
pub(crate) fn walk_copy(
    round: &Round,
    time: &[u16; 32],
    delay: &[u32; 64],
    v: usize,
    copy: u32,
    table: &mut [u32; 256],
)
    requires { Walkable round.now.chain.n delay.now round.now.q v copy table.old }
    ensures { Walks round.now.chain.m round.now.chain.source round.now.chain.sink round.now.chain.produced round.now.chain.consumed delay.now time.now round.now.q v copy table.old table.new }
{
    let entry = (round.base[v] + copy) as usize;
    if follows(copy, entry, table) {
        table[entry] = table[entry - 1];
    } else {
        let finish = table[entry] + u32::from(time[v]);
        push(round, delay, v, copy, finish, table);
    }
}
