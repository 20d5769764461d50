// The hand check, row by row.
ghost use Rattle.std.specs.Prelude.{[], ◌∷◌};
ghost use Rattle.lists.specs.Test.{Tells};
ghost use Rattle.refusals.specs.Refused.{Answered};
ghost use Rattle.dataflow.specs.Paths.{Period};
ghost use Rattle.dataflow.specs.Refusals.{HandFits};
ghost use Rattle.chain.specs.Chain.{delays_of};
ghost use Rattle.checks.specs.Check.{net_for, Ready, sheet_in};
ghost use Rattle.hand.specs.Hand.{negative_row, slow_row, Tried, HandChecks};
ghost use Rattle.hand.specs.Trial.{Timeable};

use crate::shifting::new_delays;
use checks::Checked;
use refusals::Refusal;

// One step for each entry.
fn fits(checked: &Checked, hand: &[i32]) -> bool
    ensures { Tells result (HandFits (net_for (sheet_in checked.now) []) hand.now) }
{
    hand.len() == checked.round.chain.n && hand.iter().all(|x| signed::in_hand_range(*x))
}

// The period with new delays: a round list, its time table, the latest finish.
fn period_with(checked: &Checked, new: &[u32; 64]) -> u32
    requires { Timeable checked.now new.now }
    ensures { Period (net_for (sheet_in checked.now) checked.now.round.q) (delays_of checked.now.round.chain.m new.now) result }
{
    let round = &checked.round;
    let mut list = [0u16; 256];
    firing::fire_list(&round.chain, round.total, new, &round.q, &mut list);
    let table = firing::time_table(round, &checked.time, new, &list);
    firing::latest_end(round.chain.n, &round.q, &round.base, &checked.time, &table)
}

// 13 and 14, or the period.
fn shifted(checked: &Checked, hand: &[i32]) -> Result<u32, Refusal>
    requires { Ready (sheet_in checked.now) checked.now × HandFits (net_for (sheet_in checked.now) []) hand.now }
    ensures { Answered (negative_row (sheet_in checked.now) hand.now ∷ slow_row (sheet_in checked.now) hand.now ∷ []) (Tried (sheet_in checked.now) hand.now) result }
{
    let period = period_with(checked, &new_delays(checked, hand)?);
    if period > checked.target {
        return Err(Refusal::Slow);
    }
    Ok(period)
}

// The check of a hand list of any length, for bytes of any length: the first of refusals 1 to 8 with 16, and 12 to 14 that applies, or the resulting period.
pub fn hand_period(s: &[u8], hand: &[i32]) -> Result<u32, Refusal>
    ensures { HandChecks s.now hand.now result }
{
    let checked = checks::check(s)?;
    if !fits(&checked, hand) {
        return Err(Refusal::Hand);
    }
    shifted(&checked, hand)
}
