// Text on its way to a writer: it is gathered in a page and written a page at a time.
ghost use Rattle.std.specs.Prelude.{◌≤◌, ◌≡◌, Some, IsOk, OnOk, length};
ghost use Rattle.std.specs.Option.{ForSome};
ghost use Rattle.std.specs.Io.KnownBytes.{Appends};

use std::{fmt, io};

// How many bytes at the start of a lent page are still to be written, or that a write failed: then nothing more is gathered and nothing more is
// written, and what the writer has is the beginning of the text.
#[derive(Drop)]
pub struct Page<'a, W> {
    pub out: W,
    pub bytes: &'a mut [u8],
    pub held: Option<usize>,
    ghost within: { ForSome held (λ n. n ≤ length bytes.now) },
}

// Writes all of these bytes, or stops at the first write that takes nothing or fails. `write_all` would go on behind a write that a signal broke off, which counts as
// one that failed.
fn write_whole<W: io::Write>(out: &mut W, bytes: &[u8]) -> fmt::Result
    ensures { OnOk result (Appends (W.contents out.old) (W.contents out.new) bytes.now) }
{
    let mut done = 0;
    while done < bytes.len() {
        match out.write(&bytes[done..]) {
            Ok(0) | Err(_) => return Err(fmt::Error),
            Ok(taken) => done += taken,
        }
    }
    Ok(())
}

impl<'a, W: io::Write> Page<'a, W> {
    ghost use Rattle.print.specs.Gathering.{Flushed, Gathers, RoomFor};

    pub fn new(out: W, bytes: &'a mut [u8]) -> Page<'a, W>
        ensures writer { result.out ≡ out }
        ensures empty { result.held ≡ Some 0 }
        ensures lent { (result.bytes.ghost_name ≡ bytes.entry.ghost_name) × (result.bytes.now ≡ bytes.old) }
    {
        Page {
            out,
            bytes,
            held: Some(0),
        }
    }

    // Writes what the page holds. It stands on its own in the program, so that the code that gathers a piece stays short. The lent bytes are taken out while they are read: behind the struct's `&mut`
    // only their number would be known to stay.
    #[inline(never)]
    pub fn flush(&mut self) -> fmt::Result
        ensures { Flushed W.contents self.old self.new result }
    {
        let held = self.held.take().ok_or(fmt::Error)?;
        let bytes = std::mem::take(&mut self.bytes);
        let written = write_whole(&mut self.out, &bytes[..held]);
        self.bytes = bytes;
        written?;
        self.held = Some(0);
        Ok(())
    }

    // Where the next n bytes go in the page, which is written first where it is too full for them. A text is no longer than a page.
    fn room(&mut self, n: usize) -> Result<usize, fmt::Error>
        ensures { RoomFor W.contents n self.old self.new result }
    {
        let held = self.held.ok_or(fmt::Error)?;
        let size = self.bytes.len();
        if size < n {
            self.held = None;
            return Err(fmt::Error);
        }
        if held <= size - n {
            return Ok(held);
        }
        self.flush()?;
        Ok(0)
    }

    // Gathers a text behind what the page holds.
    pub fn text(&mut self, s: &[u8]) -> fmt::Result
        ensures { Gathers W.contents self.old s.now self.new result }
    {
        let held = self.room(s.len())?;
        let end = held + s.len();
        self.bytes[held..end].copy_from_slice(s);
        self.held = Some(end);
        Ok(())
    }
}

impl<W: io::Write> fmt::Write for Page<'_, W> {
    ghost use Rattle.print.specs.Gathering.{Gathers, text_of};

    ghost write_str_gives = { λ page s page'. Appends (text_of W.contents page) (text_of W.contents page') s };

    fn write_str(&mut self, s: &str) -> fmt::Result
        ensures ok { IsOk result → Appends (text_of W.contents self.old) (text_of W.contents self.new) s.now }
        ensures gathers { Gathers W.contents self.old s.now self.new result }
    {
        self.text(s.as_bytes())
    }
}
