// Files of guards: the bytes of a file in, a page of handler rows out.
#![tactic(auto)]

mod lines;
mod reader;
mod steps;
mod words;

ghost use Rattle.std.specs.Prelude.{◌≡◌, length};
ghost use Rattle.guard_file.specs.Page.{page_most, PageSays};

use demand::refusal::Refusal;

// The most bytes of a file.
pub const FILE_MOST: usize = 4096;

// The bytes of a page: enough for the rows of 8 guards.
pub const PAGE_MOST: usize = 1024;

// What is written: so many bytes of the page, and the refusal that they tell of.
#[derive(Clone, Copy)]
pub struct Output {
    pub len: usize,
    pub refusal: Option<Refusal>,
}

// A page with nothing on it.
pub fn blank() -> [u8; PAGE_MOST]
    ensures { length result ≡ page_most }
{
    [0; PAGE_MOST]
}

// From the bytes of a file of guards to their handler rows, at the start of the page, or to the refusal.
pub fn answer(input: &[u8], page: &mut [u8; PAGE_MOST]) -> Output
    ensures { PageSays input.now page.old page.new result }
{
    lines::write(page, reader::read(input))
}
