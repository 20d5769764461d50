// Kind 5: a retiming by hand.
use crate::taking::{Fault, Malformed, Rest};
use std::fmt;

// At most 1,000 entries behind their number, and a sheet.
pub(crate) fn answer(out: &mut impl fmt::Write, body: &[u8]) -> Result<(), Fault> {
    let mut rest = Rest(body);
    let count = usize::from(rest.u16()?);
    let mut room = [0i32; 1000];
    let hand = room.get_mut(..count).ok_or(Malformed)?;
    for entry in hand.iter_mut() {
        *entry = rest.i32()?;
    }
    writeln!(out, "hand period {}", hand::hand_period(rest.0, hand)?)?;
    Ok(())
}
