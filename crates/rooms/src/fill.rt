// The tokens in a queue.
ghost use Rattle.std.specs.Prelude.{◌≡◌, ◌+◌, ◌*◌, ◌≤◌, ◌<◌, ◌^◌};

// By the firings of its source and of its sink. Two products.
pub(crate) fn tokens(delay: u32, made: u32, produced: u32, taken: u32, consumed: u32) -> u32
    requires { (delay < 2 ^ 30) × ((made ≤ 65536) × ((produced ≤ 64) × ((taken ≤ 65536) × ((consumed ≤ 64) × (taken * consumed ≤ delay + made * produced))))) }
    ensures { taken * consumed + result ≡ delay + made * produced }
{
    delay + made * produced - taken * consumed
}
