// The name of a file as the first field of a line, in quotes where RFC 4180 asks for them.
ghost use Rattle.std.specs.Prelude.{◌≡◌, ◌+◌, ◌*◌, ◌≤◌, min, length};
ghost use Rattle.charge_lines.specs.Line.{name_most, line_most, special, some, quotes, double, doubled, name_field};
ghost use Rattle.page.specs.Laid.{laid};

use crate::NAME_MOST;

// How many bytes of a name are printed.
pub fn count(name: &[u8]) -> usize
    ensures { result ≡ min (length name.now) name_most }
{
    name.len().min(NAME_MOST)
}

// Does a byte ask for quotes: a quote, a comma, or one of a line end?
fn special(b: u8) -> bool
    ensures { result ≡ special b }
{
    (b == b'"') | (b == b',') | (b == b'\r') | (b == b'\n')
}

fn some_special(name: &[u8]) -> bool
    ensures { result ≡ some special name.now }
{
    name.iter().any(|b| special(*b))
}

// How many quotes go behind a byte: a quote is doubled.
fn quotes(b: u8) -> usize
    ensures { result ≡ quotes b }
{
    usize::from(b == b'"')
}

// Lays a byte over the page, a quote doubled; the answer is where it ends.
fn put(page: &mut [u8], at: usize, b: u8) -> usize
    requires { at + 2 ≤ length page.old }
    ensures { (result ≡ at + length (double b)) × (page.new ≡ laid page.old at (double b)) }
{
    let pair = [b, b'"'];
    let n = 1 + quotes(b);
    page::lay(page, at, &pair[..n])
}

// Lays the name over the page from `at` on, each quote doubled; the answer is where it ends.
fn doubled(page: &mut [u8], at: usize, name: &[u8]) -> usize
    requires { at + 2 * length name.now ≤ length page.old }
    ensures { (result ≡ at + length (doubled name.now)) ×
        (page.new ≡ laid page.old at (doubled name.now)) }
{
    let mut to = at;
    for b in name {
        to = put(page, to, *b);
    }
    to
}

// Lays the field over a page; the answer is where it ends.
pub fn field(page: &mut [u8], name: &[u8]) -> usize
    requires { (length name.now ≤ name_most) × (length page.old ≡ line_most) }
    ensures { (result ≡ length (name_field name.now)) ×
        (page.new ≡ laid page.old 0 (name_field name.now)) }
{
    if !some_special(name) {
        return page::lay(page, 0, name);
    }
    let a = page::lay(page, 0, b"\"");
    let b = doubled(page, a, name);
    page::lay(page, b, b"\"")
}
