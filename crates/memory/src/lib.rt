// Lent memory of any chip: ranges of addresses, pages of any size, and stores that leave every other byte alone.
//
// The crate knows no map and no protection of its own: where a region lies and how long a page is are arguments throughout.
#![tactic(auto)]

use std::error::Error;
use std::fmt;

mod pages;
mod ranges;
mod stores;

pub use pages::{meets, touched};
pub use ranges::Region;
pub use stores::{fill, program, store};

// A run of pages: so many of them from the first on.
#[derive(Clone, Copy, Debug, PartialEq, Eq)]
pub struct PageRun {
    pub first: u32,
    pub count: u32,
}

impl PageRun {
    // No page.
    pub const NONE: PageRun = PageRun { first: 0, count: 0 };
}

// Refused: the bytes reach past the memory's end. None of it changed.
#[derive(Clone, Copy, Debug, PartialEq, Eq)]
pub struct Outside;

impl fmt::Display for Outside {
    fn fmt<W: fmt::Write>(&self, f: &mut fmt::Formatter<W>) -> fmt::Result {
        f.write_str("outside the memory")
    }
}

impl Error for Outside {}

// What came of programming, where bits can only be cleared.
#[derive(Clone, Copy, Debug, PartialEq, Eq)]
pub enum Programmed {
    // Each byte is now as it was given.
    AsGiven,
    // Some byte is not: it had a bit clear that was given as a one.
    Differs,
}
