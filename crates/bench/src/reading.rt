// Kind 3: a sheet is read and shown.
ghost use Rattle.std.specs.Prelude.{◌≤◌};

use crate::taking::Fault;
use sheet::Sheet;
use std::fmt;

// By index here and below, since the columns lie side by side in `Sheet`, as C has it.
fn stations(out: &mut impl fmt::Write, sheet: &Sheet) -> fmt::Result
    requires { sheet.now.n ≤ 32 }
{
    for i in 0..sheet.n {
        writeln!(
            out,
            "station {i} tag {} time {}",
            sheet.tag[i], sheet.time[i]
        )?;
    }
    Ok(())
}

fn queues(out: &mut impl fmt::Write, sheet: &Sheet) -> fmt::Result
    requires { sheet.now.m ≤ 64 }
{
    for e in 0..sheet.m {
        write!(
            out,
            "queue {e} source {} sink {}",
            sheet.source[e], sheet.sink[e]
        )?;
        writeln!(
            out,
            " produced {} consumed {} delay {}",
            sheet.produced[e], sheet.consumed[e], sheet.delay[e]
        )?;
    }
    Ok(())
}

pub(crate) fn answer(out: &mut impl fmt::Write, body: &[u8]) -> Result<(), Fault> {
    let sheet = sheet::read(body)?;
    writeln!(
        out,
        "sheet version {} stations {} queues {} target {}",
        sheet.version, sheet.n, sheet.m, sheet.target
    )?;
    stations(out, &sheet)?;
    queues(out, &sheet)?;
    Ok(())
}
