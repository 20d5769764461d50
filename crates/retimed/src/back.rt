// Back, and how often each station fires in the start list.
ghost use Rattle.std.specs.Prelude.{◌≡◌, ℕ, ◌≤◌, ◌<◌};
ghost use Rattle.lists.specs.Front.{at};
ghost use Rattle.dataflow.specs.Counts.{sum};
ghost use Rattle.retimed.specs.Back.{CoversAll, BackOf, Small, StartFirings};

// Back. One step for each station. Not a method of `Round`, which asks more than `Small` does; nor is `start_firings`.
pub fn back_of(n: usize, q: &[u32; 32], retiming: &[u32; 32]) -> u32
    requires { Small n q.now retiming.now }
    ensures { BackOf n q.now retiming.now result }
{
    retiming
        .iter()
        .zip(q)
        .take(n)
        .map(|(r, q)| r.div_ceil(*q))
        .max()
        .unwrap_or(0)
}

// The firings of the start list, station by station. One step for each station.
pub fn start_firings(n: usize, q: &[u32; 32], retiming: &[u32; 32], back: u32) -> [u32; 32]
    requires { Small n q.now retiming.now × (CoversAll n q.now retiming.now back × (back ≤ 255)) }
    ensures { StartFirings n q.now retiming.now back result }
{
    let mut firings = [0u32; 32];
    // By place, as in `chain::widen`: a zip of three columns is no plainer, and `from_fn` would need a test for the entries that stay 0.
    for v in 0..n {
        firings[v] = back * q[v] - retiming[v];
    }
    firings
}

// The sum of the first n entries. One step for each.
pub fn add(n: usize, firings: &[u32; 32]) -> usize
    requires { (n ≤ 32) × ((v : ℕ) → v < n → at firings.now v ≤ 65280) }
    ensures { result ≡ sum n (at firings.now) }
{
    firings[..n].iter().map(|x| *x as usize).sum()
}
