// The dispatcher's part.
#![tactic(auto)]

ghost use Rattle.dispatch.specs.Handed.{Handed};

// The rest of the start list or of the round list, as a part of the list that is lent.
pub fn rest<'a>(start: &'a [u16], round: &'a [u16], done: u64) -> &'a [u16]
    ensures { Handed start.entry round.entry done result }
{
    let fired = done as usize;
    if fired < start.len() {
        return &start[fired..];
    }
    if round.is_empty() {
        return round;
    }
    &round[(fired - start.len()) % round.len()..]
}
