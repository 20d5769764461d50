// Reading a sheet.
ghost use Rattle.std.specs.Prelude.{◌≡◌, ◌≤◌, length};
ghost use Rattle.lists.specs.Lowest.{FirstFailing};
ghost use Rattle.lists.specs.Test.{Tells};
ghost use Rattle.refusals.specs.Refused.{Answered};
ghost use Rattle.sheet.specs.Limits.{SheetQueueFits};
ghost use Rattle.sheet.specs.Format.{version, queue_size, sheet_of};
ghost use Rattle.sheet.specs.Read.{HeaderFits, Laid, header_rows, Passes, Reads, blank};

use crate::limits::{counts_fit, first_bad, queue_size};
use crate::{Fields, Sheet};
use refusals::Refusal;

// n, m and the zero field are within their limits.
fn header_fits(s: &[u8]) -> bool
    requires { 20 ≤ length s.now }
    ensures { Tells result (HeaderFits s.now) }
{
    let n = usize::from(little::u16_at(s, 2));
    let m = usize::from(little::u16_at(s, 4));
    counts_fit(n, m) && little::u16_at(s, 6) == 0
}

// The offsets and the length are right.
fn laid(s: &[u8], size: usize) -> bool
    requires { (20 ≤ length s.now) × ((size ≡ queue_size (version s.now)) × (size ≤ 10)) }
    ensures { Tells result (Laid s.now) }
{
    let n = usize::from(little::u16_at(s, 2));
    let m = usize::from(little::u16_at(s, 4));
    little::u32_at(s, 8) == 20
        && little::u32_at(s, 12) as usize == 20 + 4 * n
        && s.len() == 20 + 4 * n + size * m
}

// The first of refusals 1 to 4 that applies, or the size of a queue record.
fn header(s: &[u8]) -> Result<usize, Refusal>
    ensures { Answered (header_rows s.now) (λ size. (size ≡ queue_size (version s.now)) × Passes s.now) result }
{
    if s.len() < 20 {
        return Err(Refusal::Short);
    }
    let size = queue_size(little::u16_at(s, 0))?;
    if !header_fits(s) {
        return Err(Refusal::Counts);
    }
    if !laid(s, size) {
        return Err(Refusal::Layout);
    }
    Ok(size)
}

fn sheet_of(s: &[u8], size: usize) -> Sheet
    requires { (size ≡ queue_size (version s.now)) × Passes s.now }
    ensures { result ≡ sheet_of s.now }
{
    let n = usize::from(little::u16_at(s, 2));
    let m = usize::from(little::u16_at(s, 4));
    let base = 20 + 4 * n;
    Sheet {
        version: little::u16_at(s, 0),
        n,
        m,
        target: little::u32_at(s, 16),
        tag: little::padded_column(s, 20, 4, n),
        time: little::padded_column(s, 22, 4, n),
        source: little::padded_column(s, base, size, m),
        sink: little::padded_column(s, base + 2, size, m),
        produced: little::padded_column(s, base + 4, size, m),
        consumed: little::padded_column(s, base + 6, size, m),
        delay: little::padded_column(s, base + 8, size, m),
    }
}

// The lowest queue of a sheet with a field outside its limits.
fn bad_queue(sheet: &Sheet) -> Option<usize>
    requires { sheet.now.m ≤ 64 }
    ensures { FirstFailing (SheetQueueFits sheet.now) sheet.now.m result }
{
    first_bad(&Fields {
        version: sheet.version,
        n: sheet.n,
        m: sheet.m,
        target: sheet.target,
        tag: &sheet.tag,
        time: &sheet.time,
        source: &sheet.source,
        sink: &sheet.sink,
        produced: &sheet.produced,
        consumed: &sheet.consumed,
        delay: &sheet.delay,
    })
}

// A sheet of nothing but 0, as a refusal in C hands it back.
pub fn blank_sheet() -> Sheet
    ensures { result ≡ blank }
{
    Sheet {
        version: 0,
        n: 0,
        m: 0,
        target: 0,
        tag: [0; 32],
        time: [0; 32],
        source: [0; 64],
        sink: [0; 64],
        produced: [0; 64],
        consumed: [0; 64],
        delay: [0; 64],
    }
}

// Bytes of any length: the first of refusals 1 to 5 that applies, or the sheet.
pub fn read(s: &[u8]) -> Result<Sheet, Refusal>
    ensures { Reads s.now result }
{
    let size = header(s)?;
    let sheet = sheet_of(s, size);
    match bad_queue(&sheet) {
        Some(e) => Err(Refusal::Field(e as u32)),
        None => Ok(sheet),
    }
}
