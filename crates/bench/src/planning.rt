// Kind 1: a sheet is planned with buffers that no plan outgrows.
use std::fmt;

pub(crate) fn answer(out: &mut impl fmt::Write, body: &[u8]) -> fmt::Result {
    let mut start = [0u16; 65536];
    let mut round = [0u16; 256];
    let mut times = [0u32; 256];
    let planned = planner::plan_lent(body, &mut start, &mut round, &mut times);
    printed::plan(out, &planned, &start, &round, &times)
}
