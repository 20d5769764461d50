// A whole number as up - down, and back.
ghost use Rattle.std.specs.Prelude.{◌≡◌, ◌≤◌, ◌<◌, ◌^◌, pos, ◌-ℤ◌};
ghost use Rattle.dataflow.specs.Whole as whole;

pub fn up(x: i32) -> u32
    ensures { (result ≡ whole.up x) × (result < 2 ^ 31) }
{
    x.max(0).unsigned_abs()
}

pub fn down(x: i32) -> u32
    ensures { (result ≡ whole.down x) × (result ≤ 2 ^ 31) }
{
    x.min(0).unsigned_abs()
}

pub fn difference(up: u32, down: u32) -> i32
    requires { (up < 2 ^ 31) × (down ≤ 2 ^ 31) }
    ensures { result ≡ pos up -ℤ pos down }
{
    (i64::from(up) - i64::from(down)) as i32
}
