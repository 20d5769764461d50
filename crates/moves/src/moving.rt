// Where a copy goes.
ghost use Rattle.std.specs.Prelude.{◌≤◌, ◌≡◌, [], ◌∷◌};
ghost use Rattle.lists.specs.Test.{Tells};
ghost use Rattle.refusals.specs.Refused.{Answered};
ghost use Rattle.dataflow.specs.Move.{moved_copy, moved_shift};
ghost use Rattle.dataflow.specs.Refusals.{InHandRange, MoveFits};
ghost use Rattle.checks.specs.Check.{net_for, Ready, sheet_in};
ghost use Rattle.moves.specs.Moving.{move_row, Goes, OneMove};

use crate::Moved;
use checks::Checked;
use refusals::Refusal;

fn moved(q: u32, copy: u32, r: i32) -> Moved
    requires { (1 ≤ copy) × ((copy ≤ q) × ((q ≤ 256) × InHandRange r)) }
    ensures { result ≡ record { copy = moved_copy q copy r; shift = moved_shift q copy r } }
{
    let number = copy as i32 + r - 1;
    Moved {
        copy: signed::floor_mod(number, q) + 1,
        shift: signed::floor_div(number, q),
    }
}

// Whether there are such a station and copy, and r is in range.
fn there(checked: &Checked, station: usize, copy: u32, r: i32) -> bool
    ensures { Tells result (MoveFits (net_for (sheet_in checked.now) checked.now.round.q) station copy r) }
{
    let round = &checked.round;
    station < round.chain.n && 1 <= copy && copy <= round.q[station] && signed::in_hand_range(r)
}

// 12, or where the copy goes.
fn fitting(checked: &Checked, station: usize, copy: u32, r: i32) -> Result<Moved, Refusal>
    requires { Ready (sheet_in checked.now) checked.now }
    ensures { Answered (move_row (sheet_in checked.now) station copy r ∷ []) (Goes (sheet_in checked.now) station copy r) result }
{
    if !there(checked, station, copy, r) {
        return Err(Refusal::Hand);
    }
    Ok(moved(checked.round.q[station], copy, r))
}

// The move of a station's copy by r, for bytes of any length: the first of refusals 1 to 8 with 16, and 12 that applies, or where the copy goes.
pub fn one_move(s: &[u8], station: usize, copy: u32, r: i32) -> Result<Moved, Refusal>
    ensures { OneMove s.now station copy r result }
{
    fitting(&checks::check(s)?, station, copy, r)
}
