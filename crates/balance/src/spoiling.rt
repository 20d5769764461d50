// The lowest queue that can't be balanced together with those before it.
ghost use Rattle.lists.specs.Lowest.{FirstFailing};
ghost use Rattle.counts.specs.Joining.{AllJoined};
ghost use Rattle.balance.specs.Spoiled.{Balanceable};

use crate::reaching::reach;
use chain::Chain;

// The lowest queue e such that queues 0 to e together can't be balanced. One tree, and one way for each of at most m queues.
pub fn spoiled(chain: &Chain) -> Option<usize>
    requires { AllJoined chain.now.n chain.now.m chain.now.source chain.now.sink }
    ensures { FirstFailing (Balanceable chain.now.n chain.now.m chain.now.source chain.now.sink chain.now.produced chain.now.consumed) chain.now.m result }
{
    let tree = reach(chain);
    (0..chain.m).find(|&e| {
        let a = tree.place[usize::from(chain.source[e])];
        let b = tree.place[usize::from(chain.sink[e])];
        !tree.agrees(a, b, chain.produced[e], chain.consumed[e])
    })
}
