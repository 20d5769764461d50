// The period of a hand retiming, as numbers: an enum can't be returned to C (`tasselbrook_hand_period`).
ghost use Rattle.std.specs.Prelude.{◌≡◌};
ghost use Rattle.exports.specs.Answer.{answer};
ghost use Rattle.exports.specs.Checking.{hand_kind, as_hand_period, TellsPeriod};

use refusals::Refusal;

// A refusal's number and place, and the period 0; or 0, 0 and the resulting period.
#[repr(C)]
#[derive(Clone, Copy)]
pub struct HandPeriod {
    pub number: u32,
    pub place: u32,
    pub period: u32,
}

impl From<Result<u32, Refusal>> for HandPeriod {
    ghost from_gives = { λ r a. a ≡ answer hand_kind as_hand_period r };

    fn from(tried: Result<u32, Refusal>) -> HandPeriod {
        match tried {
            Ok(period) => HandPeriod {
                number: 0,
                place: 0,
                period,
            },
            Err(refusal) => HandPeriod {
                number: refusal.number(),
                place: refusal.place(),
                period: 0,
            },
        }
    }
}

#[unsafe(no_mangle)]
pub extern "C" fn tasselbrook_hand_period(s: &[u8], hand: &[i32]) -> HandPeriod
    ensures { TellsPeriod s.now hand.now result }
{
    HandPeriod::from(hand::hand_period(s, hand))
}
