// Where a token comes from.
ghost use Rattle.std.specs.Prelude.{◌≡◌, [], ◌∷◌, ◌≤◌, ◌<◌};
ghost use Rattle.lists.specs.Test.{Tells};
ghost use Rattle.refusals.specs.Refused.{Answered};
ghost use Rattle.dataflow.specs.Origin.{place_taken, token_at};
ghost use Rattle.checks.specs.Check.{sheet_in};
ghost use Rattle.tokens.specs.Told.{Asks, told_as, token_row, Told, TellsToken};

use crate::Origin;
use checks::Checked;
use refusals::Refusal;

// Where firing g of the sink finds its token k.
fn place_taken(consumed: u32, firing: u32, token: u32) -> u32
    requires { (1 ≤ firing) × ((firing ≤ 1000000) × ((consumed ≤ 64) × ((1 ≤ token) × (token ≤ consumed)))) }
    ensures { (result ≡ place_taken consumed firing token) × (result < 64000000) }
{
    (firing - 1) * consumed + (token - 1)
}

// The token at a place of a queue.
fn at_place(delay: u32, produced: u32, place: u32) -> Origin
    requires { (place < 64000000) × (1 ≤ produced) }
    ensures { result ≡ told_as (token_at delay produced place) }
{
    if place < delay {
        return Origin::Initial(place);
    }
    let made = place - delay;
    Origin::Made(made / produced + 1, made % produced + 1)
}

// Whether there are such a queue, firing and token.
fn there(checked: &Checked, queue: usize, firing: u32, token: u32) -> bool
    ensures { Tells result (Asks (sheet_in checked.now) queue firing token) }
{
    let chain = &checked.round.chain;
    queue < chain.m
        && 1 <= firing
        && firing <= 1000000
        && 1 <= token
        && token <= u32::from(chain.consumed[queue])
}

// 15, or the token.
fn found(checked: &Checked, queue: usize, firing: u32, token: u32) -> Result<Origin, Refusal>
    ensures { Answered (token_row (sheet_in checked.now) queue firing token ∷ []) (Told (sheet_in checked.now) queue firing token) result }
{
    if !there(checked, queue, firing, token) {
        return Err(Refusal::Token);
    }
    let chain = &checked.round.chain;
    let place = place_taken(u32::from(chain.consumed[queue]), firing, token);
    Ok(at_place(
        checked.delay[queue],
        u32::from(chain.produced[queue]),
        place,
    ))
}

// The origin of a token of a sink's firing on a queue, for bytes of any length: the first of refusals 1 to 8 with 16, and 15 that applies, or the token.
pub fn origin_of(s: &[u8], queue: usize, firing: u32, token: u32) -> Result<Origin, Refusal>
    ensures { TellsToken s.now queue firing token result }
{
    found(&checks::check(s)?, queue, firing, token)
}
