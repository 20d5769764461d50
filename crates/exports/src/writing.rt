// A sheet written, as numbers: an enum can't be returned to C (`tasselbrook_write`).
ghost use Rattle.std.specs.Prelude.{◌≡◌};
ghost use Rattle.sheet.specs.Write.{sheet_from};
ghost use Rattle.exports.specs.Answer.{answer};
ghost use Rattle.exports.specs.Writing.{written_kind, as_written, TellsLength};

use refusals::Refusal;
use sheet::Fields;

// A refusal's number and place with length 0, or 0, 0 and the sheet's length in bytes.
#[repr(C)]
#[derive(Clone, Copy)]
pub struct Written {
    pub number: u32,
    pub place: u32,
    pub length: usize,
}

impl From<Result<usize, Refusal>> for Written {
    ghost from_gives = { λ r a. a ≡ answer written_kind as_written r };

    fn from(written: Result<usize, Refusal>) -> Written {
        match written {
            Ok(length) => Written {
                number: 0,
                place: 0,
                length,
            },
            Err(refusal) => Written {
                number: refusal.number(),
                place: refusal.place(),
                length: 0,
            },
        }
    }
}

// Twelve parameters: the C interface has them, in include/tasselbrook.h.
#[unsafe(no_mangle)]
pub extern "C" fn tasselbrook_write(
    version: u16,
    n: usize,
    m: usize,
    target: u32,
    tag: &[u16],
    time: &[u16],
    source: &[u16],
    sink: &[u16],
    produced: &[u16],
    consumed: &[u16],
    delay: &[u16],
    out: &mut [u8],
) -> Written
    ensures { TellsLength (sheet_from version n m target tag.now time.now source.now sink.now produced.now consumed.now delay.now) out.old out.new result }
{
    let fields = Fields {
        version,
        n,
        m,
        target,
        tag,
        time,
        source,
        sink,
        produced,
        consumed,
        delay,
    };
    Written::from(sheet::write(&fields, out))
}
