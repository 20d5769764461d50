// Sheets: read from bytes, and written to bytes.
#![tactic(auto)]

mod limits;
mod reader;
mod writer;

pub use reader::{blank_sheet, read};
pub use writer::write;

// A sheet's numbers. Entries past n stations and m queues are 0. Columns of a fixed length with n and m beside them, since C reads it so and there is no heap.
#[repr(C)]
#[derive(Clone, Copy)]
pub struct Sheet {
    pub version: u16,
    pub n: usize,
    pub m: usize,
    pub target: u32,
    pub tag: [u16; 32],
    pub time: [u16; 32],
    pub source: [u16; 64],
    pub sink: [u16; 64],
    pub produced: [u16; 64],
    pub consumed: [u16; 64],
    pub delay: [u16; 64],
}

// A sheet's numbers as they are handed to the writer: columns of n stations and m queues.
#[derive(Clone, Copy)]
pub struct Fields<'a> {
    pub version: u16,
    pub n: usize,
    pub m: usize,
    pub target: u32,
    pub tag: &'a [u16],
    pub time: &'a [u16],
    pub source: &'a [u16],
    pub sink: &'a [u16],
    pub produced: &'a [u16],
    pub consumed: &'a [u16],
    pub delay: &'a [u16],
}
