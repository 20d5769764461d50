// Division that rounds up.
ghost use Rattle.std.specs.Prelude.{◌≤◌};
ghost use Rattle.chain.specs.Ceiling.{Ceiling};

// One division.
pub fn rounded_up(k: u32, rate: u32) -> u32
    requires { 1 ≤ rate }
    ensures { Ceiling k rate result }
{
    k.div_ceil(rate)
}
