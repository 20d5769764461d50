// The checks, in the order of the table.
ghost use Rattle.std.specs.Prelude.{[], ◌∷◌};
ghost use Rattle.checks.specs.Check.{Fits, RoundOf, stuck_row, chain_rows, Judges, Checks};

use crate::Checked;
use chain::{Chain, Round};
use refusals::Refusal;
use sheet::Sheet;

// 8: one round is fired.
fn fired(sheet: &Sheet, round: &Round) -> Result<Checked, Refusal>
    requires { Fits sheet.now × RoundOf sheet.now round.now }
    ensures { Judges (stuck_row sheet.now ∷ []) sheet.now result }
{
    let delay = chain::widened(&sheet.delay);
    let mut list = [0u16; 256];
    if !firing::fire_list(&round.chain, round.total, &delay, &round.q, &mut list) {
        return Err(Refusal::Stuck);
    }
    Ok(Checked {
        target: sheet.target,
        tag: sheet.tag,
        time: sheet.time,
        round: *round,
        delay,
        list,
    })
}

// 6, 16 and 7, then 8. Counts that fit balance every queue, so 16 is looked for only where none do.
fn chained(sheet: &Sheet) -> Result<Checked, Refusal>
    requires { Fits sheet.now }
    ensures { Judges (chain_rows sheet.now) sheet.now result }
{
    if !counts::joined(sheet.n, sheet.m, &sheet.source, &sheet.sink) {
        return Err(Refusal::Apart);
    }
    let chain = Chain::new(
        sheet.n,
        sheet.m,
        &sheet.source,
        &sheet.sink,
        &sheet.produced,
        &sheet.consumed,
    );
    let Some(counted) = counts::counts(&chain) else {
        return Err(match balance::spoiled(&chain) {
            Some(e) => Refusal::Unbalanced(e as u32),
            None => Refusal::CountsFail,
        });
    };
    fired(sheet, &Round::new(&chain, &counted.q, counted.total))
}

// Bytes of any length: the first of refusals 1 to 8 with 16 that applies, or what is worked out of the sheet.
pub fn check(s: &[u8]) -> Result<Checked, Refusal>
    ensures { Checks s.now result }
{
    chained(&sheet::read(s)?)
}
