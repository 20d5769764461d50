// The period and the late copies, from a time table.
ghost use Rattle.std.specs.Prelude.{◌≡◌, ◌+◌, ◌≤◌, ◌<◌, nat_lt, length, count_by, All};
ghost use Rattle.firing.specs.Late.{Readable, LatestEnd, LateCounts};

// The latest finish, which is that of the last copy of some station. One step for each station. Not a method of `Round`, which asks more than `Readable` does; nor is `late_counts`.
pub fn latest_end(
    n: usize,
    q: &[u32; 32],
    base: &[u32; 33],
    time: &[u16; 32],
    table: &[u32; 256],
) -> u32
    requires { Readable n q.now base.now table.now }
    ensures { LatestEnd n q.now time.now table.now result }
{
    let mut latest = 0;
    for v in 0..n {
        let place = (base[v] + q[v] - 1) as usize;
        latest = latest.max(table[place] + u32::from(time[v]));
    }
    latest
}

// How many of the copies with these starts finish after the target. One step for each.
fn late_of(starts: &[u32], time: u32, target: u32) -> u32
    requires { (length starts.now ≤ 256) × ((time < 65536) × All (λ x. x ≤ 16777216) starts.now) }
    ensures { result ≡ count_by (λ x. nat_lt target (x + time)) starts.now }
{
    // A loop, since the search takes up to a tenth longer with filter and count here.
    let mut late = 0;
    for start in starts {
        if target < *start + time {
            late += 1;
        }
    }
    late
}

// The number of late copies of each station. One step for each copy.
pub fn late_counts(
    n: usize,
    q: &[u32; 32],
    base: &[u32; 33],
    time: &[u16; 32],
    target: u32,
    table: &[u32; 256],
) -> [u32; 32]
    requires { Readable n q.now base.now table.now }
    ensures { LateCounts n q.now time.now target table.now result }
{
    let mut late = [0u32; 32];
    // By place, as in `chain::widen`; and `from_fn` would need a test for the entries that stay 0.
    for v in 0..n {
        let starts = &table[base[v] as usize..base[v + 1] as usize];
        late[v] = late_of(starts, u32::from(time[v]), target);
    }
    late
}
