// The room of each queue.
ghost use Rattle.std.specs.Prelude.{length};
ghost use Rattle.rooms.specs.Rooms.{BothListed, RoomsOf};

use crate::lift::lift_over;
use chain::Chain;

// The most tokens that each queue holds, at the start or after any firing, over the start list from the sheet's delays followed by one round list, which begins from the new delays. One
// step for each entry of the lists, and for each stretch of one station one for each queue out of it.
pub fn rooms(
    chain: &Chain,
    delay: &[u32; 64],
    new: &[u32; 64],
    start: &[u16],
    round: &[u16],
) -> [u32; 64]
    requires { BothListed chain.now.n chain.now.m chain.now.source chain.now.sink chain.now.produced chain.now.consumed delay.now new.now (length start.now) (length round.now) start.now round.now }
    ensures { RoomsOf chain.now.n chain.now.m chain.now.source chain.now.sink chain.now.produced chain.now.consumed delay.now (length start.now) (length round.now) start.now round.now result }
{
    let mut room = *delay;
    lift_over(chain, delay, start, &mut room);
    lift_over(chain, new, round, &mut room);
    room
}
