// What reading a file, and reading a part of one, returns.
use crate::table::Table;
use der::{Cursor, Fault};

// What reading a file returns. The table of a refused file is empty.
#[derive(Clone, Copy)]
pub struct Reading {
    pub answer: Result<(), Fault>,
    pub table: Table,
}

// A part of a file: what its elements hold, the number of elements, and the cursor past them.
#[derive(Clone, Copy)]
pub struct Parsed<T> {
    pub value: T,
    pub count: usize,
    pub next: Cursor,
}
