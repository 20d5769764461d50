// The ready scan.
ghost use Rattle.std.specs.Prelude.{◌+◌, ◌*◌, ◌≤◌, ◌<◌, ◌^◌};
ghost use Rattle.lists.specs.Test.{Tells};
ghost use Rattle.firing.specs.Scan.{Fed, Can, LowestThatCan, Small};

use chain::Chain;

// A queue holds fewer tokens than one more firing of its sink takes. Two products.
fn short(delay: u32, made: u32, produced: u32, taken: u32, consumed: u32) -> bool
    requires { (delay < 2 ^ 30) × ((made ≤ 65536) × ((produced ≤ 64) × ((taken ≤ 65536) × (consumed ≤ 64)))) }
    ensures { Tells result (delay + made * produced < (taken + 1) * consumed) }
{
    delay + made * produced < (taken + 1) * consumed
}

// Whether every queue into v holds the tokens of one more firing of v. One step for each of them.
fn fed(chain: &Chain, delay: &[u32; 64], fired: &[u32; 32], v: usize) -> bool
    requires { (v < chain.now.n) × Small delay.now fired.now }
    ensures { Tells result (Fed chain.now.m chain.now.source chain.now.sink chain.now.produced chain.now.consumed delay.now fired.now v) }
{
    let mut e = usize::from(chain.into.head[v]);
    while e < chain.m {
        let u = usize::from(chain.source[e]);
        if short(
            delay[e],
            fired[u],
            u32::from(chain.produced[e]),
            fired[v],
            u32::from(chain.consumed[e]),
        ) {
            return false;
        }
        e = usize::from(chain.into.next[e]);
    }
    true
}

// The lowest-numbered station that has firings left and is fed. At most n stations and m queues are looked at.
pub(crate) fn ready(
    chain: &Chain,
    delay: &[u32; 64],
    wanted: &[u32; 32],
    fired: &[u32; 32],
) -> Option<usize>
    requires { Small delay.now fired.now }
    ensures { LowestThatCan (Can chain.now.m chain.now.source chain.now.sink chain.now.produced chain.now.consumed delay.now wanted.now fired.now) chain.now.n result }
{
    for v in 0..chain.n {
        if fired[v] < wanted[v] && fed(chain, delay, fired, v) {
            return Some(v);
        }
    }
    None
}
