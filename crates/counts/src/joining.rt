// Whether the stations are joined, directions ignored.
ghost use Rattle.lists.specs.Lowest.{FirstFailing};
ghost use Rattle.lists.specs.Test.{Tells};
ghost use Rattle.counts.specs.Joining.{Ends, AllJoined, OneSide, Crosses};

use crate::Crossing;

// The lowest queue with just one marked end. One scan of at most m queues.
fn lowest_one_sided(
    m: usize,
    source: &[u16; 64],
    sink: &[u16; 64],
    marked: &[bool; 32],
) -> Option<usize>
    requires { Ends 32 m source.now sink.now }
    ensures { FirstFailing (OneSide source.now sink.now marked.now) m result }
{
    (0..m).find(|&e| marked[usize::from(source[e])] != marked[usize::from(sink[e])])
}

// That queue, and the station at its other end. One scan of at most m queues.
pub fn lowest_crossing(
    m: usize,
    source: &[u16; 64],
    sink: &[u16; 64],
    marked: &[bool; 32],
) -> Option<Crossing>
    requires { Ends 32 m source.now sink.now }
    ensures { Crosses m source.now sink.now marked.now result }
{
    let queue = lowest_one_sided(m, source, sink, marked)?;
    let u = usize::from(source[queue]);
    let v = usize::from(sink[queue]);
    let station = if marked[u] { v } else { u };
    Some(Crossing { queue, station })
}

// Marks the stations that are joined to station 0, one after the other. Columns, since a `Chain` would ask more: limits on the rates.
// At most n - 1 scans of m queues.
pub fn joined(n: usize, m: usize, source: &[u16; 64], sink: &[u16; 64]) -> bool
    requires { Ends n m source.now sink.now }
    ensures { Tells result (AllJoined n m source.now sink.now) }
{
    let mut marked = [false; 32];
    marked[0] = true;
    for _count in 1..n {
        let Some(crossed) = lowest_crossing(m, source, sink, &marked) else {
            return false;
        };
        marked[crossed.station] = true;
    }
    true
}
