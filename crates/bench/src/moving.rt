// Kind 6: one move of a copy.
use crate::taking::{Fault, Rest};
use std::fmt;

// Station, copy and r, and a sheet.
pub(crate) fn answer(out: &mut impl fmt::Write, body: &[u8]) -> Result<(), Fault> {
    let mut rest = Rest(body);
    let station = usize::from(rest.u16()?);
    let copy = u32::from(rest.u16()?);
    let r = rest.i32()?;
    let moved = moves::one_move(rest.0, station, copy, r)?;
    writeln!(out, "move copy {} shift {}", moved.copy, moved.shift)?;
    Ok(())
}
