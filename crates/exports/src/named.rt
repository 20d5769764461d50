// The dispatcher's part, named by numbers: a part of a lent list can't be returned to C.
ghost use Rattle.std.specs.Prelude.{◌≡◌};
ghost use Rattle.exports.specs.Named.{name_after};

// Which list (0 the start list, 1 the round list), the part's place in it, and its length.
#[repr(C)]
#[derive(Drop)]
pub struct Rest {
    pub list: u32,
    pub place: usize,
    pub length: usize,
}

#[unsafe(no_mangle)]
pub extern "C" fn tasselbrook_rest<'a>(start: &'a [u16], round: &'a [u16], done: u64) -> Rest
    ensures { result ≡ name_after start.now round.now done }
{
    let length = dispatch::rest(start, round, done).len();
    if (done as usize) < start.len() {
        return Rest {
            list: 0,
            place: start.len() - length,
            length,
        };
    }
    Rest {
        list: 1,
        place: round.len() - length,
        length,
    }
}
