// A sheet read, as numbers: an enum can't be returned to C (`tasselbrook_read`).
ghost use Rattle.std.specs.Prelude.{◌≡◌};
ghost use Rattle.exports.specs.Answer.{answer};
ghost use Rattle.exports.specs.Reading.{read_kind, as_reading, TellsSheet};

use refusals::Refusal;
use sheet::Sheet;

// A refusal's number and place with a blank sheet, or 0, 0 and the sheet.
#[repr(C)]
#[derive(Clone, Copy)]
pub struct Reading {
    pub number: u32,
    pub place: u32,
    pub sheet: Sheet,
}

impl From<Result<Sheet, Refusal>> for Reading {
    ghost from_gives = { λ r a. a ≡ answer read_kind as_reading r };

    fn from(read: Result<Sheet, Refusal>) -> Reading {
        match read {
            Ok(sheet) => Reading {
                number: 0,
                place: 0,
                sheet,
            },
            Err(refusal) => Reading {
                number: refusal.number(),
                place: refusal.place(),
                sheet: sheet::blank_sheet(),
            },
        }
    }
}

#[unsafe(no_mangle)]
pub extern "C" fn tasselbrook_read(s: &[u8]) -> Reading
    ensures { TellsSheet s.now result }
{
    Reading::from(sheet::read(s))
}
