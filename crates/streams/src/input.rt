// Bytes from an input.
ghost use Rattle.std.specs.Prelude.{◌≡◌, ◌≤◌, ◌<◌, length, take, IfOk};
ghost use Rattle.std.specs.Io.KnownBytes.{Consumes, IsAtEnd};
ghost use Rattle.streams.specs.Filled.{count_of};

use std::io::Read;

// A read failed behind so many bytes, which stand at the front.
#[derive(Clone, Copy, Debug, PartialEq, Eq)]
pub struct Unread {
    pub count: usize,
}

// Reads until the list is full, the input ends or a read fails; gives how many bytes stand at the front of the list now. Where that isn't all of it, the input has ended.
// A loop, since `read_exact` doesn't tell how many bytes there were.
pub fn fill<R: Read>(input: &mut R, space: &mut [u8]) -> Result<usize, Unread>
    ensures within { count_of result ≤ length space.new }
    ensures front { count_of result ≡ length (take (count_of result) space.new) }
    ensures bytes { Consumes (R.remaining input.old) (R.remaining input.new) (take (count_of result) space.new) }
    ensures end { IfOk result (λ n. n < length space.new → IsAtEnd (R.remaining input.new)) }
{
    let mut count = 0;
    while count < space.len() {
        match input.read(&mut space[count..]) {
            Ok(0) => break,
            Ok(more) => count += more,
            Err(_) => return Err(Unread { count }),
        }
    }
    Ok(count)
}
