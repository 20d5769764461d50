// The printed plan.
#![tactic(auto)]

ghost use Rattle.std.specs.Prelude.{◌≤◌, IfOk};
ghost use Rattle.planner.specs.Fits.{Fits};

use planner::PlanNumbers;
use refusals::Refusal;
use std::convert::AsSlice;
use std::fmt;

// A word, of any bytes. Those that are no text are shown by U+FFFD, since only text can be written.
fn heading(out: &mut impl fmt::Write, word: &[u8]) -> fmt::Result {
    for part in word.utf8_chunks() {
        out.write_str(part.valid())?;
        if !part.invalid().is_empty() {
            out.write_char(char::REPLACEMENT_CHARACTER)?;
        }
    }
    Ok(())
}

// A word and the entries of a list behind it; an empty list prints its word alone.
pub fn list<T: fmt::Display>(
    out: &mut impl fmt::Write,
    word: impl AsSlice<u8> + Drop,
    entries: &[T],
) -> fmt::Result {
    heading(out, word.as_slice())?;
    for entry in entries {
        write!(out, " {entry}")?;
    }
    writeln!(out)
}

// By index here and below, since the columns lie side by side in `PlanNumbers`.
fn stations(out: &mut impl fmt::Write, p: &PlanNumbers) -> fmt::Result
    requires { p.now.n ≤ 32 }
{
    for v in 0..p.n {
        writeln!(
            out,
            "station {v} tag {} count {} retime {} start {}",
            p.tag[v], p.q[v], p.retiming[v], p.start[v]
        )?;
    }
    Ok(())
}

fn queues(out: &mut impl fmt::Write, p: &PlanNumbers) -> fmt::Result
    requires { p.now.m ≤ 64 }
{
    for e in 0..p.m {
        writeln!(out, "queue {e} delay {} room {}", p.delay[e], p.room[e])?;
    }
    Ok(())
}

fn accepted(
    out: &mut impl fmt::Write,
    p: &PlanNumbers,
    start: &[u16],
    round: &[u16],
    table: &[u32],
) -> fmt::Result
    requires { Fits p.now start.now round.now table.now }
{
    writeln!(
        out,
        "accepted period {} rounds {} back {}",
        p.period, p.rounds, p.back
    )?;
    stations(out, p)?;
    queues(out, p)?;
    list(out, "start", &start[..p.starts])?;
    list(out, "round", &round[..p.total])?;
    list(out, "times", &table[..p.total])
}

// The lines of a plan, or the one line of a refusal.
pub fn plan(
    out: &mut impl fmt::Write,
    planned: &Result<PlanNumbers, Refusal>,
    start: &[u16],
    round: &[u16],
    table: &[u32],
) -> fmt::Result
    requires { IfOk planned.now (λ p. Fits p start.now round.now table.now) }
{
    match planned {
        Ok(p) => accepted(out, p, start, round, table),
        Err(refusal) => writeln!(out, "{refusal}"),
    }
}
