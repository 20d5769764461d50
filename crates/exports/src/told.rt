// The origin of a token, as numbers: an enum can't be returned to C (`tasselbrook_origin_of`).
ghost use Rattle.std.specs.Prelude.{◌≡◌};
ghost use Rattle.exports.specs.Told.{numbers_of, TellsNumbers};

use refusals::Refusal;
use tokens::Origin;

// A refusal's number and place, and every other number 0; or 0, 0, the kind (1 initial, 2 made) and
// the token: its place on the queue, or the firing that made it and its place in that firing.
#[repr(C)]
#[derive(Clone, Copy)]
pub struct TokenOrigin {
    pub number: u32,
    pub place: u32,
    pub kind: u32,
    pub firing: u32,
    pub token: u32,
}

impl From<Result<Origin, Refusal>> for TokenOrigin {
    ghost from_gives = { λ r a. a ≡ numbers_of r };

    fn from(origin: Result<Origin, Refusal>) -> TokenOrigin {
        match origin {
            Ok(Origin::Initial(place)) => TokenOrigin {
                number: 0,
                place: 0,
                kind: 1,
                firing: 0,
                token: place,
            },
            Ok(Origin::Made(firing, place)) => TokenOrigin {
                number: 0,
                place: 0,
                kind: 2,
                firing,
                token: place,
            },
            Err(refusal) => TokenOrigin {
                number: refusal.number(),
                place: refusal.place(),
                kind: 0,
                firing: 0,
                token: 0,
            },
        }
    }
}

#[unsafe(no_mangle)]
pub extern "C" fn tasselbrook_origin_of(
    s: &[u8],
    queue: usize,
    firing: u32,
    token: u32,
) -> TokenOrigin
    ensures { TellsNumbers s.now queue firing token result }
{
    TokenOrigin::from(tokens::origin_of(s, queue, firing, token))
}
