// A refusal of the table, with the queue that it names where it names one.
ghost use Rattle.std.specs.Prelude.{◌≡◌};
ghost use Rattle.refusals.specs.Table.{word};
ghost use Rattle.refusals.specs.Refused.{number_of, place_of, kind_of};

use crate::wording::{self, line};
use std::fmt;

#[derive(Clone, Copy, PartialEq, Eq)]
pub enum Refusal {
    Short,
    Version,
    Counts,
    Layout,
    Field(u32),
    Apart,
    CountsFail,
    Stuck,
    NoRetiming,
    Room,
    Hand,
    Negative(u32),
    Slow,
    Token,
    Unbalanced(u32),
}

impl Refusal {
    pub fn number(self) -> u32
        ensures { result ≡ number_of self }
    {
        match self {
            Refusal::Short => 1,
            Refusal::Version => 2,
            Refusal::Counts => 3,
            Refusal::Layout => 4,
            Refusal::Field(_) => 5,
            Refusal::Apart => 6,
            Refusal::CountsFail => 7,
            Refusal::Stuck => 8,
            Refusal::NoRetiming => 9,
            Refusal::Room => 11,
            Refusal::Hand => 12,
            Refusal::Negative(_) => 13,
            Refusal::Slow => 14,
            Refusal::Token => 15,
            Refusal::Unbalanced(_) => 16,
        }
    }

    // The queue that it names, or 0, and no `Option`: the printed line and C's structs say 0 where none is named.
    pub fn place(self) -> u32
        ensures { result ≡ place_of self }
    {
        match self {
            Refusal::Field(queue) | Refusal::Negative(queue) | Refusal::Unbalanced(queue) => queue,
            _ => 0,
        }
    }

    pub fn word(self) -> &'static str
        ensures { result.now ≡ word (kind_of self) }
    {
        wording::word(self.number()).unwrap()
    }
}

// The one line of a refusal, without its end.
impl fmt::Display for Refusal {
    fn fmt<W: fmt::Write>(&self, f: &mut fmt::Formatter<W>) -> fmt::Result {
        line(f, self.number(), self.place())
    }
}
