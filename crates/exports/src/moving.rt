// Where a copy goes, as numbers: an enum can't be returned to C (`tasselbrook_one_move`).
ghost use Rattle.std.specs.Prelude.{◌≡◌};
ghost use Rattle.exports.specs.Answer.{answer};
ghost use Rattle.exports.specs.Moving.{moved_kind, as_moved, TellsMove};

use refusals::Refusal;

// A refusal's number and place, and every other number 0; or 0, 0, the copy that it moves to and its shift in rounds.
#[repr(C)]
#[derive(Clone, Copy)]
pub struct Moved {
    pub number: u32,
    pub place: u32,
    pub copy: u32,
    pub shift: i32,
}

impl From<Result<moves::Moved, Refusal>> for Moved {
    ghost from_gives = { λ r a. a ≡ answer moved_kind as_moved r };

    fn from(moved: Result<moves::Moved, Refusal>) -> Moved {
        match moved {
            Ok(moved) => Moved {
                number: 0,
                place: 0,
                copy: moved.copy,
                shift: moved.shift,
            },
            Err(refusal) => Moved {
                number: refusal.number(),
                place: refusal.place(),
                copy: 0,
                shift: 0,
            },
        }
    }
}

#[unsafe(no_mangle)]
pub extern "C" fn tasselbrook_one_move(s: &[u8], station: usize, copy: u32, r: i32) -> Moved
    ensures { TellsMove s.now station copy r result }
{
    Moved::from(moves::one_move(s, station, copy, r))
}
