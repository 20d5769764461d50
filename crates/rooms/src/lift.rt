// Rooms, lifted while a list is fired.
ghost use Rattle.std.specs.Prelude.{◌<◌, length};
ghost use Rattle.firing.specs.Scan.{Small};
ghost use Rattle.rooms.specs.Lifted.{Lifted, OutOf, HoldsBy, AllPut, Covered, StretchEnds, Listed, Peaks};

use crate::fill::tokens;
use chain::Chain;

// Lifts the room of each queue out of v to at least the tokens that it holds after these firings. One step for each of these queues.
fn lift_from(chain: &Chain, v: usize, delay: &[u32; 64], fired: &[u32; 32], room: &mut [u32; 64])
    requires { Small delay.now fired.now × (AllPut chain.now.m chain.now.source chain.now.sink chain.now.produced chain.now.consumed delay.now fired.now × (v < chain.now.n)) }
    ensures { Lifted (OutOf chain.now.m chain.now.source v) (HoldsBy chain.now.source chain.now.sink chain.now.produced chain.now.consumed delay.now fired.now) room.old room.new }
{
    let made = fired[v];
    let mut e = usize::from(chain.out.head[v]);
    while e < chain.m {
        let w = usize::from(chain.sink[e]);
        let fill = tokens(
            delay[e],
            made,
            u32::from(chain.produced[e]),
            fired[w],
            u32::from(chain.consumed[e]),
        );
        room[e] = room[e].max(fill);
        e = usize::from(chain.out.next[e]);
    }
}

// The place behind the entries from this one on that name the same station. One step for each of them.
fn stretch_end(list: &[u16], from: usize) -> usize
    requires { from < length list.now }
    ensures { StretchEnds list.now (length list.now) from result }
{
    let v = list[from];
    from + list[from..].iter().take_while(|w| **w == v).count()
}

// Lifts each room, which covers its queue's delay, to at least the most tokens that the queue holds, at the start or after any firing of the list. A queue is fullest before or behind a stretch
// of firings of one station, and holds more only behind one of its source: one step for each firing, and for each stretch one for each queue out of its station.
pub(crate) fn lift_over(chain: &Chain, delay: &[u32; 64], list: &[u16], room: &mut [u32; 64])
    requires { Listed chain.now.n chain.now.m chain.now.source chain.now.sink chain.now.produced chain.now.consumed delay.now (length list.now) list.now × Covered chain.now.m delay.now room.old }
    ensures { Lifted (λ e. e < chain.now.m) (Peaks chain.now.n chain.now.m chain.now.source chain.now.sink chain.now.produced chain.now.consumed delay.now (length list.now) list.now) room.old room.new }
{
    let mut fired = [0u32; 32];
    let mut k = 0;
    // From stretch to stretch, by `stretch_end`, of which a law of uniqueness speaks.
    while k < list.len() {
        let v = usize::from(list[k]);
        let end = stretch_end(list, k);
        fired[v] += (end - k) as u32;
        lift_from(chain, v, delay, &fired, room);
        k = end;
    }
}
