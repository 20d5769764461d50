// Numbers below 2^224 as four limbs of 56 bits, the lowest first: products of many rates, exactly.
#![tactic(auto)]

ghost use Rattle.std.specs.Prelude.{◌*◌, ◌≤◌, ◌<◌, ◌≡◌};
ghost use Rattle.limbs.specs.Value.{limit};

use std::marker::Model;

const BASE: u64 = 1 << 56;

// A number that contracts see as itself. It isn't `Copy`, which asks for a formula that gives the limbs back from the number; they are copied by way of their array.
#[derive(Debug, Drop)]
pub struct Limbs {
    limbs: [u64; 4],
}

impl Model for Limbs {
    ghost use Rattle.std.specs.Prelude.{ℕ};
    ghost use Rattle.limbs.specs.Value.{Proper, value};

    ghost Value = { ℕ };

    ghost view = { λ a. value a.limbs };

    ghost invariant = { λ a. Proper a.limbs };
}

// By hand: a derive would compare the limbs that an `inverse` of the view gives back, and here `==` is that of the numbers.
impl PartialEq for Limbs {
    ghost use Rattle.std.specs.Prelude.{nat_eq};
    ghost use Rattle.std.specs.Cmp.{nat_eq_equiv, partial_equiv_from_equiv};

    ghost eq = { nat_eq };

    ghost laws = { partial_equiv_from_equiv nat_eq_equiv };

    fn eq(&self, other: &Limbs) -> bool {
        self.limbs == other.limbs
    }
}

impl Eq for Limbs {
    ghost use Rattle.std.specs.Cmp.{nat_eq_equiv};

    ghost laws = { nat_eq_equiv };
}

// A rate as a number of four limbs.
impl From<u16> for Limbs {
    ghost from_gives = { λ rate r. r ≡ rate };

    fn from(rate: u16) -> Limbs {
        Limbs::new([u64::from(rate), 0, 0, 0])
    }
}

// The limbs that a number stands in, the lowest first.
impl From<&Limbs> for [u64; 4] {
    ghost use Rattle.limbs.specs.Value.{StandsFor};

    ghost from_gives = { λ x r. StandsFor r x.now };

    fn from(number: &Limbs) -> [u64; 4] {
        number.limbs
    }
}

impl Limbs {
    ghost use Rattle.limbs.specs.Value.{Proper, value};

    // Four limbs, the lowest first, each below the base.
    pub fn new(limbs: [u64; 4]) -> Limbs
        requires { Proper limbs }
        ensures { result ≡ value limbs }
    {
        Limbs { limbs }
    }

    // The product with a rate, in place. Four products.
    pub fn times(&mut self, rate: u16)
        requires few { rate ≤ 64 }
        requires fits { self.old * rate < limit }
        ensures { self.new ≡ self.old * rate }
    {
        let k = u64::from(rate);
        let a = self.limbs[0] * k;
        let b = self.limbs[1] * k + a / BASE;
        let c = self.limbs[2] * k + b / BASE;
        let d = self.limbs[3] * k + c / BASE;
        self.limbs = [a % BASE, b % BASE, c % BASE, d];
    }
}
