// The next question of an input.
ghost use Rattle.std.specs.Prelude.{◌<◌, length};

use crate::taking::Malformed;
use std::io::Read;
use streams::Unread;

// What is asked.
#[derive(Clone, Copy)]
pub(crate) enum Kind {
    Plan,
    Lend,
    Read,
    Write,
    Hand,
    Move,
    Origin,
    Dispatch,
}

impl TryFrom<u8> for Kind {
    type Error = Malformed;

    fn try_from(byte: u8) -> Result<Kind, Malformed> {
        match byte {
            1 => Ok(Kind::Plan),
            2 => Ok(Kind::Lend),
            3 => Ok(Kind::Read),
            4 => Ok(Kind::Write),
            5 => Ok(Kind::Hand),
            6 => Ok(Kind::Move),
            7 => Ok(Kind::Origin),
            8 => Ok(Kind::Dispatch),
            _ => Err(Malformed),
        }
    }
}

// A question's kind and body; or one whose body is over 70,000 bytes and was passed over; or one inside which the input ends. Three cases of its own, since only the first has a body,
// and behind the last no other question comes.
#[derive(Clone, Copy)]
pub(crate) enum Question<'a> {
    Asked(u8, &'a [u8]),
    TooLong,
    Broken,
}

// The question, or nothing where the input has ended. A body that is too long is passed over.
pub(crate) fn next<'a>(
    input: &mut impl Read,
    space: &'a mut [u8; 70000],
) -> Result<Option<Question<'a>>, Unread> {
    let mut head = [0u8; 5];
    let count = streams::fill(input, &mut head)?;
    if count == 0 {
        return Ok(None);
    }
    if count < 5 {
        return Ok(Some(Question::Broken));
    }
    let n = little::u32_at(&head, 1) as usize;
    if 70000 < n {
        return Ok(Some(passed_over(input, n, space)?));
    }
    if streams::fill(input, &mut space[..n])? < n {
        return Ok(Some(Question::Broken));
    }
    Ok(Some(Question::Asked(head[0], &space[..n])))
}

// A question whose body of n bytes is too long, and is taken by way of space. A loop, since `io::copy` goes on behind a read that a signal broke off, which counts as one that failed.
fn passed_over(
    input: &mut impl Read,
    n: usize,
    space: &mut [u8],
) -> Result<Question<'static>, Unread>
    requires { 0 < length space.old }
{
    let mut rest = n;
    while 0 < rest {
        let want = rest.min(space.len());
        if streams::fill(input, &mut space[..want])? < want {
            return Ok(Question::Broken);
        }
        rest -= want;
    }
    Ok(Question::TooLong)
}
