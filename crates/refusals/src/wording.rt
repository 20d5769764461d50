// What is said of a refusal.
ghost use Rattle.std.specs.Prelude.{◌≡◌, Some, None, MatchOption};
ghost use Rattle.refusals.specs.Spelled.{Spelled};

use std::fmt;

// The word of the refusal with this number; none where the table doesn't have the number.
pub fn word(number: u32) -> Option<&'static str>
    ensures { MatchOption result (Spelled number None) (λ letters. Spelled number (Some letters.now)) }
{
    match number {
        1 => Some("short"),
        2 => Some("version"),
        3 => Some("counts"),
        4 => Some("layout"),
        5 => Some("field"),
        6 => Some("apart"),
        7 => Some("counts-fail"),
        8 => Some("stuck"),
        9 => Some("no-retiming"),
        11 => Some("room"),
        12 => Some("hand"),
        13 => Some("negative"),
        14 => Some("slow"),
        15 => Some("token"),
        16 => Some("unbalanced"),
        _ => None,
    }
}

// The one line of the refusal with this number, without its end. Nothing is promised of what is written, as of no line that the programs print.
pub fn line(out: &mut impl fmt::Write, number: u32, place: u32) -> fmt::Result {
    write!(out, "refused {number}")?;
    if let Some(word) = word(number) {
        write!(out, " {word}")?;
    }
    write!(out, " place {place}")
}
