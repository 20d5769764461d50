// The queues at each station, found without a scan of all queues.
ghost use Rattle.std.specs.Prelude.{ℕ, ◌≤◌, ◌<◌};
ghost use Rattle.lists.specs.Front.{at};
ghost use Rattle.chain.specs.Thread.{Threads};

// The lowest queue at each station, and behind each queue the next one at the same station; m where there is none.
// Not `Option`s, though they prove: with `Option<u16>` fan255 takes 1.2 times as long, and with `Option<u8>` 1.1 times, as most_steps does. Columns of a fixed length: there is no heap.
#[derive(Clone, Copy)]
pub struct Threaded {
    pub head: [u16; 32],
    pub next: [u16; 64],
}

// Threads the queues by the stations at one of their ends. One pass over them.
pub fn threads(n: usize, m: usize, ends: &[u16; 64]) -> Threaded
    requires { (n ≤ 32) × ((m ≤ 64) × ((e : ℕ) → e < m → at ends.now e < n)) }
    ensures { Threads n m ends.now result.head result.next }
{
    let none = m as u16;
    let mut head = [none; 32];
    let mut next = [none; 64];
    // By place: each queue goes before the one that was first at its station.
    for e in (0..m).rev() {
        let v = usize::from(ends[e]);
        next[e] = head[v];
        head[v] = e as u16;
    }
    Threaded { head, next }
}
