// A list of firings.
ghost use Rattle.std.specs.Prelude.{ℕ, ◌≤◌, ◌<◌, ◌^◌, length};
ghost use Rattle.lists.specs.Front.{at};
ghost use Rattle.firing.specs.Fire.{Wanted, Fires};

use crate::scan::ready;
use chain::Chain;

// Fires every station as often as wanted from these delays, always the lowest-numbered station that can, and says whether that can be done. The firings are stored in the
// list's first entries, and the list may be longer (`Fires`). At most total scans.
pub fn fire_list(
    chain: &Chain,
    total: usize,
    delay: &[u32; 64],
    wanted: &[u32; 32],
    list: &mut [u16],
) -> bool
    requires { ((e : ℕ) → at delay.now e < 2 ^ 30) × (Wanted chain.now.n wanted.now total × (total ≤ length list.old)) }
    ensures { Fires chain.now.n chain.now.m chain.now.source chain.now.sink chain.now.produced chain.now.consumed delay.now wanted.now total result list.old list.new }
{
    let mut fired = [0u32; 32];
    for k in 0..total {
        let Some(v) = ready(chain, delay, wanted, &fired) else {
            return false;
        };
        list[k] = v as u16;
        fired[v] += 1;
    }
    true
}
