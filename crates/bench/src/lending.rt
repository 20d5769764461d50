// Kind 2: a sheet is planned with buffers of any length.
use crate::taking::{Fault, Rest};
use std::fmt;

// How many entries at the end still hold the filler.
fn kept<T: PartialEq>(buffer: &[T], filler: &T) -> usize {
    buffer.iter().rev().take_while(|x| *x == filler).count()
}

fn show(
    out: &mut impl fmt::Write,
    sheet: &[u8],
    start: &mut [u16],
    round: &mut [u16],
    times: &mut [u32],
) -> fmt::Result {
    let planned = planner::plan(sheet, start, round, times);
    printed::plan(out, &planned, start, round, times)?;
    writeln!(
        out,
        "kept {} {} {}",
        kept(start, &u16::MAX),
        kept(round, &u16::MAX),
        kept(times, &u32::MAX)
    )
}

// Three lengths, at most those that no plan outgrows, and a sheet.
pub(crate) fn answer(out: &mut impl fmt::Write, body: &[u8]) -> Result<(), Fault> {
    let mut rest = Rest(body);
    let starts = rest.u32()? as usize;
    let rounds = rest.u32()? as usize;
    let tables = rest.u32()? as usize;
    if 65536 < starts || 256 < rounds || 256 < tables {
        return Err(Fault::Malformed);
    }
    // Filled only now: on a question that can't be taken apart the fill would be most of the time.
    let mut start = [u16::MAX; 65536];
    let mut round = [u16::MAX; 256];
    let mut times = [u32::MAX; 256];
    show(
        out,
        rest.0,
        &mut start[..starts],
        &mut round[..rounds],
        &mut times[..tables],
    )?;
    Ok(())
}
