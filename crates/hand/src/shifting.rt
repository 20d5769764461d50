// The delays that a hand list gives, by sums of natural numbers.
ghost use Rattle.std.specs.Prelude.{◌+◌, ◌≡◌, ◌<◌, [], ◌∷◌, MatchOption};
ghost use Rattle.refusals.specs.Refused.{Answered};
ghost use Rattle.dataflow.specs.Refusals.{HandFits};
ghost use Rattle.checks.specs.Check.{net_for, Ready, sheet_in};
ghost use Rattle.hand.specs.Hand.{negative_row};
ghost use Rattle.hand.specs.Shift.{gain, loss, Small, NewDelays};

use checks::Checked;
use refusals::Refusal;

// What a queue has left: its delay and what it gains, less what it loses. None where it loses more.
fn left(delay: u32, consumed: u32, sink: i32, produced: u32, source: i32) -> Option<u32>
    requires { Small delay consumed sink produced source }
    ensures { MatchOption result (gain delay consumed sink produced source < loss consumed sink produced source) (λ x. x + loss consumed sink produced source ≡ gain delay consumed sink produced source) }
{
    let gain = delay + consumed * signed::up(sink) + produced * signed::down(source);
    let loss = consumed * signed::down(sink) + produced * signed::up(source);
    gain.checked_sub(loss)
}

// 13, which names the lowest queue that loses more than it has, or the new delays. One step for each queue.
pub(crate) fn new_delays(checked: &Checked, hand: &[i32]) -> Result<[u32; 64], Refusal>
    requires { Ready (sheet_in checked.now) checked.now × HandFits (net_for (sheet_in checked.now) []) hand.now }
    ensures { Answered (negative_row (sheet_in checked.now) hand.now ∷ []) (NewDelays (sheet_in checked.now) hand.now) result }
{
    let chain = &checked.round.chain;
    let mut new = [0u32; 64];
    // By place, as in `chain::widen`; and it ends at the first queue that loses more than it has.
    for e in 0..chain.m {
        let Some(delay) = left(
            checked.delay[e],
            u32::from(chain.consumed[e]),
            hand[usize::from(chain.sink[e])],
            u32::from(chain.produced[e]),
            hand[usize::from(chain.source[e])],
        ) else {
            return Err(Refusal::Negative(e as u32));
        };
        new[e] = delay;
    }
    Ok(new)
}
