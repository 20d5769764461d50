// Kind 8: the dispatcher's part of two lists.
use crate::taking::{Fault, Malformed, Rest};
use std::fmt;

// At most 1,000 stations behind their number.
fn stations<'a>(rest: &mut Rest, room: &'a mut [u16; 1000]) -> Result<&'a [u16], Malformed> {
    let count = usize::from(rest.u16()?);
    let list = room.get_mut(..count).ok_or(Malformed)?;
    little::column(rest.past(2 * count)?, 0, 2, count, list);
    Ok(list)
}

// The firings done and the two lists.
pub(crate) fn answer(out: &mut impl fmt::Write, body: &[u8]) -> Result<(), Fault> {
    let mut rest = Rest(body);
    let done = rest.u64()?;
    let mut rooms = ([0u16; 1000], [0u16; 1000]);
    let start = stations(&mut rest, &mut rooms.0)?;
    let round = stations(&mut rest, &mut rooms.1)?;
    if !rest.0.is_empty() {
        return Err(Fault::Malformed);
    }
    printed::list(out, "part", dispatch::rest(start, round, done))?;
    Ok(())
}
