// A list of names, a line at a time. It is read byte by byte, so that each name is known as soon as its line ends.
ghost use Rattle.std.specs.Prelude.{◌≡◌, ◌≤◌, length, IfOk, IfSome};

use std::io::Read;

// A read failed.
#[derive(Clone, Copy, Debug, PartialEq, Eq)]
pub struct ReadFailed;

// The next byte, where there is one.
fn read_byte<R: Read>(input: &mut R) -> Result<Option<u8>, ReadFailed> {
    let mut one = [0u8; 1];
    match input.read(&mut one) {
        Ok(0) => Ok(None),
        Ok(_) => Ok(Some(one[0])),
        Err(_) => Err(ReadFailed),
    }
}

// Keeps a byte where there is room; the answer is how many are kept.
fn keep(buf: &mut [u8], count: usize, b: u8) -> usize
    requires { count ≤ length buf.old }
    ensures { (result ≤ length buf.new) × (length buf.new ≡ length buf.old) }
{
    if count < buf.len() {
        buf[count] = b;
        count + 1
    } else {
        count
    }
}

// The bytes of a line but for a CR at its end.
fn without_cr(buf: &[u8], count: usize) -> usize
    requires { count ≤ length buf.now }
    ensures { result ≤ length buf.now }
{
    if buf[..count].ends_with(b"\r") {
        count - 1
    } else {
        count
    }
}

// The next name: how many bytes up to an LF, or up to the end where there are any, as many as there is room for. None where the list is
// over.
pub fn next<R: Read>(input: &mut R, buf: &mut [u8]) -> Result<Option<usize>, ReadFailed>
    ensures { IfOk result (λ name. IfSome name (λ n. n ≤ length buf.new)) }
{
    let mut count = 0;
    for before in 0..u64::MAX {
        match read_byte(input)? {
            None if before == 0 => return Ok(None),
            None | Some(b'\n') => return Ok(Some(without_cr(buf, count))),
            Some(b) => count = keep(buf, count, b),
        }
    }
    Err(ReadFailed)
}
