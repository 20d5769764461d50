// A tree of queues over stations, the way between two of its places, and the products of the rates along it.
ghost use Rattle.std.specs.Prelude.{◌<◌};
ghost use Rattle.balance.specs.Way.{RateFits, Steps, Agrees};

use limbs::Limbs;

// The step from a place to the place that it was reached from, with the rate at its own end of the queue and at the other end.
#[derive(Clone, Copy)]
pub(crate) struct Step {
    pub(crate) up: usize,
    pub(crate) near: u16,
    pub(crate) far: u16,
}

// Each station has a place, by the order in which it was reached, from 0, and from each place but 0 a step leads to a lower one.
#[derive(Drop)]
pub(crate) struct Tree {
    pub(crate) place: [usize; 32],
    pub(crate) steps: [Step; 32],
    pub(crate) ghost fits: { Steps steps },
}

impl Tree {
    // Whether a queue with these rates from place a to place b balances where the steps on the way between them do: the products of the
    // rates round that loop agree. At most 31 steps of two products.
    pub(crate) fn agrees(&self, a: usize, b: usize, produced: u16, consumed: u16) -> bool
        requires places { (a < 32) × (b < 32) }
        requires rates { RateFits produced × RateFits consumed }
        ensures { Agrees self.now.steps a b produced consumed result }
    {
        let mut left = Limbs::from(produced);
        let mut right = Limbs::from(consumed);
        let mut i = a;
        let mut j = b;
        while i != j {
            if i < j {
                let Step { up, near, far } = self.steps[j];
                left.times(near);
                right.times(far);
                j = up;
            } else {
                let Step { up, near, far } = self.steps[i];
                left.times(far);
                right.times(near);
                i = up;
            }
        }
        left == right
    }
}
