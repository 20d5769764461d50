// Planning, check by check.
ghost use Rattle.std.specs.Prelude.{[], ◌∷◌, length, ◌≡◌};
ghost use Rattle.checks.specs.Check.{Ready, sheet_in};
ghost use Rattle.planner.specs.Making.{Retimed, Begun, HasRoom, Wrote, numbers_of};
ghost use Rattle.planner.specs.Plan.{room_row, retimed_rows, AnswersPlan, Plans};

use crate::PlanNumbers;
use crate::listing::{write_list, write_times};
use checks::Checked;
use refusals::Refusal;
use search::Found;

// How a plan begins: back, how often each station fires in the start list, and the length of that list.
#[derive(Clone, Copy)]
struct Beginning {
    back: u32,
    firings: [u32; 32],
    starts: usize,
}

// Writes both lists, each fired once, and the time table.
fn write(
    checked: &Checked,
    found: &Found,
    beginning: &Beginning,
    start: &mut [u16],
    round: &mut [u16],
    times: &mut [u32],
)
    requires { Begun checked.now found.now beginning.now.back beginning.now.firings beginning.now.starts × HasRoom checked.now beginning.now.starts start.old round.old times.old }
    ensures { Wrote checked.now found.now beginning.now.firings start.old round.old times.old start.new round.new times.new }
{
    let chain = &checked.round.chain;
    let total = checked.round.total;
    let given = &checked.delay;
    write_list(chain, beginning.starts, given, &beginning.firings, start);
    write_list(chain, total, &found.delay, &checked.round.q, round);
    write_times(total, &found.table, times);
}

// The plan's numbers.
fn shown(checked: &Checked, found: &Found, beginning: &Beginning, room: [u32; 64]) -> PlanNumbers
    ensures { result ≡ numbers_of checked.now found.now beginning.now.back beginning.now.firings beginning.now.starts room }
{
    PlanNumbers {
        n: checked.round.chain.n,
        m: checked.round.chain.m,
        period: found.period,
        rounds: found.rounds,
        back: beginning.back,
        starts: beginning.starts,
        total: checked.round.total,
        tag: checked.tag,
        q: checked.round.q,
        retiming: found.retiming,
        start: beginning.firings,
        delay: found.delay,
        room,
    }
}

// 11, or the plan.
fn lent(
    checked: &Checked,
    found: &Found,
    beginning: &Beginning,
    start: &mut [u16],
    round: &mut [u16],
    times: &mut [u32],
) -> Result<PlanNumbers, Refusal>
    requires { Begun checked.now found.now beginning.now.back beginning.now.firings beginning.now.starts }
    ensures { AnswersPlan (room_row (sheet_in checked.now) (length start.old) (length round.old) (length times.old) ∷ []) (sheet_in checked.now) start.old round.old times.old result start.new round.new times.new }
{
    let starts = beginning.starts;
    let total = checked.round.total;
    if start.len() < starts || round.len() < total || times.len() < total {
        return Err(Refusal::Room);
    }
    write(checked, found, beginning, start, round, times);
    let room = rooms::rooms(
        &checked.round.chain,
        &checked.delay,
        &found.delay,
        &start[..starts],
        &round[..total],
    );
    Ok(shown(checked, found, beginning, room))
}

// Back and the firings of the start list.
fn begun(checked: &Checked, found: &Found) -> Beginning
    requires { Retimed checked.now found.now }
    ensures { Begun checked.now found.now result.back result.firings result.starts }
{
    let n = checked.round.chain.n;
    let q = &checked.round.q;
    let back = retimed::back_of(n, q, &found.retiming);
    let firings = retimed::start_firings(n, q, &found.retiming, back);
    let starts = retimed::add(n, &firings);
    Beginning {
        back,
        firings,
        starts,
    }
}

// 9; then 11, or the plan.
fn searched(
    checked: &Checked,
    start: &mut [u16],
    round: &mut [u16],
    times: &mut [u32],
) -> Result<PlanNumbers, Refusal>
    requires { Ready (sheet_in checked.now) checked.now }
    ensures { AnswersPlan (retimed_rows (sheet_in checked.now) (length start.old) (length round.old) (length times.old)) (sheet_in checked.now) start.old round.old times.old result start.new round.new times.new }
{
    let Some(found) = search::search(
        &checked.round,
        &checked.delay,
        &checked.time,
        checked.target,
        &checked.list,
    ) else {
        return Err(Refusal::NoRetiming);
    };
    lent(
        checked,
        &found,
        &begun(checked, &found),
        start,
        round,
        times,
    )
}

// Plans a sheet of any bytes with three lent buffers of any length: the first of refusals 1 to 9 with 16, and 11, that applies, or the plan. The start list, the round list and the time
// table go to the first needed entries of the buffers; a refusal writes to none. The three are lent one by one, as C lends them, and `Plans` says of each what it holds.
pub fn plan(
    s: &[u8],
    start: &mut [u16],
    round: &mut [u16],
    times: &mut [u32],
) -> Result<PlanNumbers, Refusal>
    ensures { Plans s.now start.old round.old times.old result start.new round.new times.new }
{
    searched(&checks::check(s)?, start, round, times)
}
