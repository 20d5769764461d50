// Little-endian numbers in bytes.
#![tactic(auto)]

ghost use Rattle.std.specs.Prelude.{◌≡◌, ◌+◌, ◌≤◌, length};
ghost use Rattle.lists.specs.Front.{front, padded};
ghost use Rattle.lists.specs.Put.{put};
ghost use Rattle.little.specs.Little.{u16le, u32le, two, four, column_at, Apart};

pub fn u16_at(s: &[u8], at: usize) -> u16
    requires { at + 2 ≤ length s.now }
    ensures { result ≡ u16le s.now at }
{
    u16::from_le_bytes([s[at], s[at + 1]])
}

pub fn u32_at(s: &[u8], at: usize) -> u32
    requires { at + 4 ≤ length s.now }
    ensures { result ≡ u32le s.now at }
{
    u32::from_le_bytes([s[at], s[at + 1], s[at + 2], s[at + 3]])
}

// The first count entries of out become the numbers that stand step bytes apart from base on.
pub fn column(s: &[u8], base: usize, step: usize, count: usize, out: &mut [u16])
    requires { Apart base step count (length s.now) (length out.old) }
    ensures { out.new ≡ front count (column_at s.now base step) out.old }
{
    // By place: behind an `iter_mut` nothing is known of the entries.
    for i in 0..count {
        out[i] = u16_at(s, base + step * i);
    }
}

// Those numbers, and 0 behind them.
pub fn padded_column<const N: usize>(s: &[u8], base: usize, step: usize, count: usize) -> [u16; N]
    requires { Apart base step count (length s.now) N }
    ensures { result ≡ padded N count (column_at s.now base step) }
{
    let mut out = [0u16; N];
    column(s, base, step, count, &mut out);
    out
}

pub fn put_u16(out: &mut [u8], at: usize, x: u16)
    requires { at + 2 ≤ length out.old }
    ensures { out.new ≡ put out.old at (two x) }
{
    out[at..at + 2].copy_from_slice(&x.to_le_bytes());
}

// Beside `put_u16` and no generic function: the library has no trait for `to_le_bytes`, and one of our own would be longer than both.
pub fn put_u32(out: &mut [u8], at: usize, x: u32)
    requires { at + 4 ≤ length out.old }
    ensures { out.new ≡ put out.old at (four x) }
{
    out[at..at + 4].copy_from_slice(&x.to_le_bytes());
}
