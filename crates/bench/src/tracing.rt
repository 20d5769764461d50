// Kind 7: the origin of a token.
use crate::taking::{Fault, Rest};
use std::fmt;
use tokens::Origin;

// Queue, firing and token, and a sheet.
pub(crate) fn answer(out: &mut impl fmt::Write, body: &[u8]) -> Result<(), Fault> {
    let mut rest = Rest(body);
    let queue = usize::from(rest.u16()?);
    let firing = rest.u32()?;
    let token = u32::from(rest.u16()?);
    match tokens::origin_of(rest.0, queue, firing, token)? {
        Origin::Initial(place) => writeln!(out, "origin initial place {place}")?,
        Origin::Made(firing, place) => writeln!(out, "origin made firing {firing} place {place}")?,
    }
    Ok(())
}
