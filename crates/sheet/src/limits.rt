// The limits of a sheet's numbers, and the size of its records.
ghost use Rattle.std.specs.Prelude.{◌≡◌, ◌≢◌, ◌<◌, MatchResult};
ghost use Rattle.lists.specs.Lowest.{FirstFailing};
ghost use Rattle.lists.specs.Test.{Tells};
ghost use Rattle.sheet.specs.Limits.{CountsFit, SheetQueueFits, SheetColumns};
ghost use Rattle.sheet.specs.Format.{queue_size};
ghost use Rattle.sheet.specs.Write.{handed_sheet};

use crate::Fields;
use refusals::Refusal;

// The bytes of a queue record, or refusal 2 where there is no such version.
pub(crate) fn queue_size(version: u16) -> Result<usize, Refusal>
    ensures { MatchResult result (λ size. (version ≡ 1) × (size ≡ queue_size version)) (λ e. (e ≡ Refusal.Version) × (version ≢ 1)) }
{
    match version {
        1 => Ok(10),
        _ => Err(Refusal::Version),
    }
}

pub(crate) fn counts_fit(n: usize, m: usize) -> bool
    ensures { Tells result (CountsFit n m) }
{
    (1..=32).contains(&n) && m <= 64
}

fn queue_fits(fields: &Fields, e: usize) -> bool
    requires { SheetColumns (handed_sheet fields.now) × (e < fields.now.m) }
    ensures { Tells result (SheetQueueFits (handed_sheet fields.now) e) }
{
    usize::from(fields.source[e]) < fields.n
        && usize::from(fields.sink[e]) < fields.n
        && (1..=64).contains(&fields.produced[e])
        && (1..=64).contains(&fields.consumed[e])
        && fields.delay[e] <= 4095
}

// The lowest queue with a field outside its limits.
pub(crate) fn first_bad(fields: &Fields) -> Option<usize>
    requires { SheetColumns (handed_sheet fields.now) }
    ensures { FirstFailing (SheetQueueFits (handed_sheet fields.now)) fields.now.m result }
{
    (0..fields.m).find(|&e| !queue_fits(fields, e))
}
