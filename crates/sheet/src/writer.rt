// Writing a sheet.
ghost use Rattle.std.specs.Prelude.{◌≡◌, ◌++◌, ◌+◌, ◌*◌, ◌≤◌, length};
ghost use Rattle.lists.specs.Put.{put};
ghost use Rattle.lists.specs.Joined.{joined};
ghost use Rattle.lists.specs.Test.{Tells};
ghost use Rattle.little.specs.Little.{two};
ghost use Rattle.sheet.specs.Limits.{CountsFit, SheetColumns};
ghost use Rattle.sheet.specs.Format.{sheet_end, header_bytes, station_bytes, queue_bytes};
ghost use Rattle.sheet.specs.Write.{handed_sheet, SheetHanded, write_rows, Judges, Writes};

use crate::Fields;
use crate::limits::{counts_fit, first_bad, queue_size};
use refusals::Refusal;

// n and m are within their limits, and the columns are those of n stations and m queues.
fn counted(fields: &Fields) -> bool
    ensures { Tells result (CountsFit fields.now.n fields.now.m × SheetHanded (handed_sheet fields.now)) }
{
    counts_fit(fields.n, fields.m)
        && fields.tag.len() == fields.n
        && fields.time.len() == fields.n
        && fields.source.len() == fields.m
        && fields.sink.len() == fields.m
        && fields.produced.len() == fields.m
        && fields.consumed.len() == fields.m
        && fields.delay.len() == fields.m
}

fn put_header(out: &mut [u8], fields: &Fields)
    requires { (20 ≤ length out.old) × CountsFit fields.now.n fields.now.m }
    ensures { out.new ≡ put out.old 0 (header_bytes fields.now.version fields.now.n fields.now.m fields.now.target) }
{
    little::put_u16(out, 0, fields.version);
    little::put_u16(out, 2, fields.n as u16);
    little::put_u16(out, 4, fields.m as u16);
    little::put_u16(out, 6, 0);
    little::put_u32(out, 8, 20);
    little::put_u32(out, 12, 20 + 4 * fields.n as u32);
    little::put_u32(out, 16, fields.target);
}

fn put_station(out: &mut [u8], at: usize, tag: u16, time: u16)
    requires { at + 4 ≤ length out.old }
    ensures { out.new ≡ put out.old at (two tag ++ two time) }
{
    little::put_u16(out, at, tag);
    little::put_u16(out, at + 2, time);
}

fn put_stations(out: &mut [u8], fields: &Fields)
    requires { (fields.now.n ≤ length fields.now.tag.now) × ((fields.now.n ≤ length fields.now.time.now) × (20 + 4 * fields.now.n ≤ length out.old)) }
    ensures { out.new ≡ put out.old 20 (joined fields.now.n (station_bytes fields.now.tag.now fields.now.time.now)) }
{
    for i in 0..fields.n {
        put_station(out, 20 + 4 * i, fields.tag[i], fields.time[i]);
    }
}

// Beside `put_station`: the records have other fields, so that one routine for both would take them as a list.
fn put_queue(
    out: &mut [u8],
    at: usize,
    source: u16,
    sink: u16,
    produced: u16,
    consumed: u16,
    delay: u16,
)
    requires { at + 10 ≤ length out.old }
    ensures { out.new ≡ put out.old at (two source ++ two sink ++ two produced ++ two consumed ++ two delay) }
{
    little::put_u16(out, at, source);
    little::put_u16(out, at + 2, sink);
    little::put_u16(out, at + 4, produced);
    little::put_u16(out, at + 6, consumed);
    little::put_u16(out, at + 8, delay);
}

fn put_queues(out: &mut [u8], base: usize, fields: &Fields)
    requires { SheetColumns (handed_sheet fields.now) × (base + 10 * fields.now.m ≤ length out.old) }
    ensures { out.new ≡ put out.old base (joined fields.now.m (queue_bytes fields.now.source.now fields.now.sink.now fields.now.produced.now fields.now.consumed.now fields.now.delay.now)) }
{
    for e in 0..fields.m {
        put_queue(
            out,
            base + 10 * e,
            fields.source[e],
            fields.sink[e],
            fields.produced[e],
            fields.consumed[e],
            fields.delay[e],
        );
    }
}

// What writing answers for a buffer of room bytes.
fn judge(fields: &Fields, room: usize) -> Result<usize, Refusal>
    ensures { Judges (write_rows (handed_sheet fields.now) room) (sheet_end fields.now.version fields.now.n fields.now.m) result }
{
    let size = queue_size(fields.version)?;
    if !counted(fields) {
        return Err(Refusal::Counts);
    }
    if let Some(e) = first_bad(fields) {
        return Err(Refusal::Field(e as u32));
    }
    let length = 20 + 4 * fields.n + size * fields.m;
    if room < length {
        return Err(Refusal::Room);
    }
    Ok(length)
}

// Writes a sheet over the front of out: the first of refusals 2, 3, 5 and 11 that applies, or the sheet's length.
pub fn write(fields: &Fields, out: &mut [u8]) -> Result<usize, Refusal>
    ensures { Writes (handed_sheet fields.now) out.old out.new result }
{
    let length = judge(fields, out.len())?;
    put_header(out, fields);
    put_stations(out, fields);
    put_queues(out, 20 + 4 * fields.n, fields);
    Ok(length)
}
