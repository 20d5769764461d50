// The range of a hand retiming's entries.
ghost use Rattle.lists.specs.Test.{Tells};
ghost use Rattle.dataflow.specs.Refusals.{InHandRange};

pub fn in_hand_range(x: i32) -> bool
    ensures { Tells result (InHandRange x) }
{
    x.unsigned_abs() <= 65535
}
