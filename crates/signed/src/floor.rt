// Division by a count, rounded toward minus infinity.
ghost use Rattle.std.specs.Prelude.{◌≡◌, ◌≤◌, ◌<◌};
ghost use Rattle.dataflow.specs.Move.{floor_div, floor_mod};

pub fn floor_div(x: i32, q: u32) -> i32
    requires { (1 ≤ q) × (q ≤ 65536) }
    ensures { result ≡ floor_div x q }
{
    x.div_euclid(q as i32)
}

// What is left over, from 0 to q - 1. In 64 bits, since q may be larger than an i32.
pub fn floor_mod(x: i32, q: u32) -> u32
    requires { 1 ≤ q }
    ensures { (result ≡ floor_mod x q) × (result < q) }
{
    i64::from(x).rem_euclid(i64::from(q)) as u32
}
