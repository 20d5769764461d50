// A plan, as numbers: an enum can't be returned to C (`tasselbrook_plan`).
ghost use Rattle.std.specs.Prelude.{◌≡◌};
ghost use Rattle.exports.specs.Planning.{refused_by, planning_of, TellsPlan};

use planner::PlanNumbers;
use refusals::Refusal;

// A refusal's number and place, and every other number 0; or 0, 0 and the plan, as `planner::PlanNumbers` has it.
#[repr(C)]
#[derive(Clone, Copy)]
pub struct Planning {
    pub number: u32,
    pub place: u32,
    pub n: usize,
    pub m: usize,
    pub period: u32,
    pub rounds: usize,
    pub back: u32,
    pub starts: usize,
    pub total: usize,
    pub tag: [u16; 32],
    pub q: [u32; 32],
    pub retiming: [u32; 32],
    pub start: [u32; 32],
    pub delay: [u32; 64],
    pub room: [u32; 64],
}

fn accepted(plan: &PlanNumbers) -> Planning
    ensures { result ≡ planning_of (Ok plan.now) }
{
    Planning {
        number: 0,
        place: 0,
        n: plan.n,
        m: plan.m,
        period: plan.period,
        rounds: plan.rounds,
        back: plan.back,
        starts: plan.starts,
        total: plan.total,
        tag: plan.tag,
        q: plan.q,
        retiming: plan.retiming,
        start: plan.start,
        delay: plan.delay,
        room: plan.room,
    }
}

fn refused(number: u32, place: u32) -> Planning
    ensures { result ≡ refused_by number place }
{
    Planning {
        number,
        place,
        n: 0,
        m: 0,
        period: 0,
        rounds: 0,
        back: 0,
        starts: 0,
        total: 0,
        tag: [0; 32],
        q: [0; 32],
        retiming: [0; 32],
        start: [0; 32],
        delay: [0; 64],
        room: [0; 64],
    }
}

impl From<Result<PlanNumbers, Refusal>> for Planning {
    ghost from_gives = { λ r a. a ≡ planning_of r };

    fn from(planned: Result<PlanNumbers, Refusal>) -> Planning {
        match planned {
            Ok(plan) => accepted(&plan),
            Err(refusal) => refused(refusal.number(), refusal.place()),
        }
    }
}

#[unsafe(no_mangle)]
pub extern "C" fn tasselbrook_plan(
    s: &[u8],
    start: &mut [u16],
    round: &mut [u16],
    times: &mut [u32],
) -> Planning
    ensures { TellsPlan s.now start.old round.old times.old result start.new round.new times.new }
{
    Planning::from(planner::plan(s, start, round, times))
}
