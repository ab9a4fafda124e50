//! Reading a certificate: line by line, each log checked as soon as it has been read.

mod body;
mod certificate;
mod class_lines;
mod head;
mod names;
mod parts;

pub use certificate::verify;

/// Where reading stands: the number of the next line, and the bytes from it on.
#[derive(Clone, Copy)]
pub struct Cursor<'a> {
    pub line: u64,
    pub rest: &'a [u8],
}
