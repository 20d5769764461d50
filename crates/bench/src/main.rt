// Questions on standard input, answers on standard output.
#![tactic(auto)]

mod asking;
mod checking;
mod dispatching;
mod lending;
mod moving;
mod planning;
mod reading;
mod taking;
mod tracing;
mod writing;

use asking::{Kind, Question, next};
use print::Page;
use std::io::Read;
use std::{fmt, io};
use streams::Failure;
use taking::Fault;

// The answer to a question of a kind. A match, since the kinds are an enum: a table of closures would say no more.
fn answer(out: &mut impl fmt::Write, kind: Kind, body: &[u8]) -> Result<(), Fault> {
    match kind {
        Kind::Plan => Ok(planning::answer(out, body)?),
        Kind::Lend => lending::answer(out, body),
        Kind::Read => reading::answer(out, body),
        Kind::Write => writing::answer(out, body),
        Kind::Hand => checking::answer(out, body),
        Kind::Move => moving::answer(out, body),
        Kind::Origin => tracing::answer(out, body),
        Kind::Dispatch => dispatching::answer(out, body),
    }
}

// The answer to a question, which may be that it can't be taken apart.
fn answer_to(out: &mut impl fmt::Write, question: Question) -> Result<(), Fault> {
    let Question::Asked(kind, body) = question else {
        return Err(Fault::Malformed);
    };
    answer(out, Kind::try_from(kind)?, body)
}

// The lines of the answer to a question, behind its number.
fn lines(out: &mut impl fmt::Write, index: u64, question: Question) -> fmt::Result {
    writeln!(out, "question {index}")?;
    match answer_to(out, question) {
        Ok(()) => Ok(()),
        Err(Fault::Malformed) => writeln!(out, "malformed"),
        Err(Fault::Refused(refusal)) => writeln!(out, "{refusal}"),
        Err(Fault::Cut) => Err(fmt::Error),
    }
}

// Answers question by question, up to the end of the input.
fn run(input: &mut impl Read, out: impl io::Write + Drop) -> Result<(), Failure> {
    let mut space = [0u8; 70000];
    let mut lent = [0u8; 4096];
    let mut page = Page::new(out, &mut lent);
    for index in 0..u64::MAX {
        let Some(question) = next(input, &mut space)? else {
            return Ok(());
        };
        lines(&mut page, index, question)?;
        page.flush()?;
        if matches!(question, Question::Broken) {
            return Ok(());
        }
    }
    Ok(())
}

fn main(rt: HostRuntime) {
    match run(&mut rt.stdin(), io::writer(&rt)) {
        Ok(()) => streams::done(&rt),
        Err(failure) => streams::failed(&rt, failure),
    }
}
