// The parts of a question's body, taken from its front. Numbers are little-endian.
ghost use Rattle.std.specs.Prelude.{◌≡◌};
ghost use Rattle.little.specs.Little.{u16le, u32le};
ghost use Rattle.bench.specs.Taken.{u64le, i32le, Takes};

use refusals::Refusal;
use std::fmt;

// A question that can't be taken apart.
#[derive(Clone, Copy)]
pub(crate) struct Malformed;

// What an answer is in place of what was asked for: the question can't be taken apart, or what it asks for is refused, and nothing was gathered yet; or a write failed.
#[derive(Clone, Copy)]
pub(crate) enum Fault {
    Malformed,
    Refused(Refusal),
    Cut,
}

impl From<Refusal> for Fault {
    fn from(refusal: Refusal) -> Fault {
        Fault::Refused(refusal)
    }
}

impl From<Malformed> for Fault {
    fn from(_malformed: Malformed) -> Fault {
        Fault::Malformed
    }
}

impl From<fmt::Error> for Fault {
    fn from(_error: fmt::Error) -> Fault {
        Fault::Cut
    }
}

// What isn't taken yet.
#[derive(Clone, Copy)]
pub(crate) struct Rest<'a>(pub(crate) &'a [u8]);

impl<'a> Rest<'a> {
    // Goes past n bytes, and gives them with all that stands behind them.
    pub(crate) fn past(&mut self, n: usize) -> Result<&'a [u8], Malformed>
        ensures { Takes n (λ s x. x.now ≡ s) self.old.0.now self.new.0.now result }
    {
        let taken = self.0;
        self.0 = taken.get(n..).ok_or(Malformed)?;
        Ok(taken)
    }

    pub(crate) fn u16(&mut self) -> Result<u16, Malformed>
        ensures { Takes 2 (λ s x. x ≡ u16le s 0) self.old.0.now self.new.0.now result }
    {
        Ok(little::u16_at(self.past(2)?, 0))
    }

    pub(crate) fn u32(&mut self) -> Result<u32, Malformed>
        ensures { Takes 4 (λ s x. x ≡ u32le s 0) self.old.0.now self.new.0.now result }
    {
        Ok(little::u32_at(self.past(4)?, 0))
    }

    // The lower half first.
    pub(crate) fn u64(&mut self) -> Result<u64, Malformed>
        ensures { Takes 8 (λ s x. x ≡ u64le s) self.old.0.now self.new.0.now result }
    {
        let taken = self.past(8)?;
        let low = u64::from(little::u32_at(taken, 0));
        Ok(low + (u64::from(little::u32_at(taken, 4)) << 32))
    }

    // Two's complement: the highest bit counts below 0.
    pub(crate) fn i32(&mut self) -> Result<i32, Malformed>
        ensures { Takes 4 (λ s x. x ≡ i32le s) self.old.0.now self.new.0.now result }
    {
        let bits = self.u32()?;
        Ok(signed::difference(bits % (1 << 31), bits / (1 << 31) * (1 << 31)))
    }
}
