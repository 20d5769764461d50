// How a program ends. A program that was started with an argument tells its status as a digit on descriptor 3, and tools/run ends with it.
use crate::input::Unread;
use std::env::FillError;
use std::fmt;
use std::fs::OpenOptions;
use std::io::Write;
use std::rt::{Env, Files};

const STATUS: &str = "/dev/fd/3";

// What stops a program: a read that failed before the end of the input; or a write that failed or took less than it was given, so that what stands on standard output is only
// the beginning of the text.
#[derive(Clone, Copy, Debug, PartialEq, Eq)]
pub enum Failure {
    Unread,
    Cut,
}

impl From<Unread> for Failure {
    fn from(_unread: Unread) -> Failure {
        Failure::Unread
    }
}

impl From<fmt::Error> for Failure {
    fn from(_error: fmt::Error) -> Failure {
        Failure::Cut
    }
}

impl fmt::Display for Failure {
    fn fmt<W: fmt::Write>(&self, f: &mut fmt::Formatter<W>) -> fmt::Result {
        f.write_str(match self {
            Failure::Unread => "the input couldn't be read",
            Failure::Cut => "the output isn't whole",
        })
    }
}

// The argument is looked at in place, since `env::args` would make strings on a heap.
fn has_argument(rt: &impl Env) -> bool {
    let mut first = [0u8; 1];
    !matches!(rt.arg(1, &mut first), Err(FillError::NotPresent))
}

// The descriptor is opened by its name, and only added to. It is opened for reading too, since a pipe that is opened for writing alone waits for a reader. Where it can't be
// opened, nothing is told.
fn tell(rt: &(impl Env + Files), status: &[u8]) {
    if !has_argument(rt) {
        return;
    }
    if let Ok(mut file) = OpenOptions::new().read(true).append(true).open(rt, STATUS) {
        let _ = file.write_all(status);
    }
}

// All went well.
pub fn done(rt: &(impl Env + Files)) {
    tell(rt, b"0");
}

// What was asked for was refused.
pub fn refused(rt: &(impl Env + Files)) {
    tell(rt, b"1");
}

// The program was stopped; says by what.
pub fn failed(rt: &(impl Env + Files + Eprint), failure: Failure) {
    let _ = rt.eprintln(failure);
    tell(rt, b"2");
}
