// Kind 4: fields are written as a sheet to a lent buffer.
ghost use Rattle.std.specs.Prelude.{◌≤◌, length};

use crate::taking::{Fault, Malformed, Rest};
use sheet::Fields;
use std::fmt;

// The fields of a sheet as they are handed over: a stations and b queues. They stand in columns, since `sheet::write` takes columns.
#[derive(Drop)]
struct Taken {
    version: u16,
    n: usize,
    m: usize,
    target: u32,
    a: usize,
    b: usize,
    tag: [u16; 100],
    time: [u16; 100],
    source: [u16; 200],
    sink: [u16; 200],
    produced: [u16; 200],
    consumed: [u16; 200],
    delay: [u16; 200],
    ghost stations: { a ≤ 100 },
    ghost queues: { b ≤ 200 },
}

impl Taken {
    fn new(version: u16, n: u16, m: u16, target: u32) -> Taken {
        Taken {
            version,
            n: usize::from(n),
            m: usize::from(m),
            target,
            a: 0,
            b: 0,
            tag: [0; 100],
            time: [0; 100],
            source: [0; 200],
            sink: [0; 200],
            produced: [0; 200],
            consumed: [0; 200],
            delay: [0; 200],
        }
    }

    // The stations behind their number.
    fn take_stations(&mut self, rest: &mut Rest) -> Result<(), Malformed> {
        let count = usize::from(rest.u16()?);
        if 100 < count {
            return Err(Malformed);
        }
        let body = rest.past(4 * count)?;
        little::column(body, 0, 4, count, &mut self.tag);
        little::column(body, 2, 4, count, &mut self.time);
        self.a = count;
        Ok(())
    }

    // The queues behind their number.
    fn take_queues(&mut self, rest: &mut Rest) -> Result<(), Malformed> {
        let count = usize::from(rest.u16()?);
        if 200 < count {
            return Err(Malformed);
        }
        let body = rest.past(10 * count)?;
        little::column(body, 0, 10, count, &mut self.source);
        little::column(body, 2, 10, count, &mut self.sink);
        little::column(body, 4, 10, count, &mut self.produced);
        little::column(body, 6, 10, count, &mut self.consumed);
        little::column(body, 8, 10, count, &mut self.delay);
        self.b = count;
        Ok(())
    }

    // As they are lent to the writer.
    fn fields(&self) -> Fields {
        Fields {
            version: self.version,
            n: self.n,
            m: self.m,
            target: self.target,
            tag: &self.tag[..self.a],
            time: &self.time[..self.a],
            source: &self.source[..self.b],
            sink: &self.sink[..self.b],
            produced: &self.produced[..self.b],
            consumed: &self.consumed[..self.b],
            delay: &self.delay[..self.b],
        }
    }
}

// At most 2,000 bytes, as two hexadecimal digits each. Made all at once: `{:02x}` pads each byte by itself, and a whole answer takes up to seven times as long. Neither error can come: there is room for
// the digits, and digits are text.
fn show_bytes(out: &mut impl fmt::Write, bytes: &[u8]) -> fmt::Result
    requires { length bytes.now ≤ 2000 }
{
    let mut room = [0u8; 4000];
    let digits = &mut room[..2 * bytes.len()];
    hex::encode_to_slice(bytes, digits).map_err(|_| fmt::Error)?;
    out.write_str(str::from_utf8(digits).map_err(|_| fmt::Error)?)
}

// Writes the fields to the lent bytes, and shows the answer and those bytes.
fn show(out: &mut impl fmt::Write, taken: &Taken, lent: &mut [u8]) -> fmt::Result
    requires { length lent.old ≤ 2000 }
{
    match sheet::write(&taken.fields(), lent) {
        Ok(length) => writeln!(out, "written {length}")?,
        Err(refusal) => writeln!(out, "{refusal}")?,
    }
    write!(out, "buffer")?;
    if !lent.is_empty() {
        write!(out, " ")?;
    }
    show_bytes(out, lent)?;
    writeln!(out)
}

// The head of a sheet, the length of a buffer of at most 2,000 bytes, and the stations and queues.
pub(crate) fn answer(out: &mut impl fmt::Write, body: &[u8]) -> Result<(), Fault> {
    let mut rest = Rest(body);
    let mut taken = Taken::new(rest.u16()?, rest.u16()?, rest.u16()?, rest.u32()?);
    let lent = rest.u32()? as usize;
    taken.take_stations(&mut rest)?;
    taken.take_queues(&mut rest)?;
    if !rest.0.is_empty() {
        return Err(Fault::Malformed);
    }
    let mut buffer = [165u8; 2000];
    show(out, &taken, buffer.get_mut(..lent).ok_or(Malformed)?)?;
    Ok(())
}
