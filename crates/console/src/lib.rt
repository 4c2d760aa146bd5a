// What a program reads and says: input that is whole or not used, and the line on standard error where there is no answer.
#![tactic(auto)]

ghost use Rattle.std.specs.Prelude.{IfErr, IfOk};
ghost use Rattle.console.specs.Counts.{IsPrefixLen};

use demand::refusal::Refusal;
use std::env::Env;
use std::fs::File;
use std::io::{Print, Read};
use std::rt::Files;
use std::str;
use text::Text;

// A read failed behind so many bytes.
#[derive(Clone, Copy, Debug, PartialEq, Eq)]
pub struct Unfinished {
    pub count: usize,
}

// Reads until a read answers that the input has ended, or there is no room left: how many bytes. Where a read fails they are a part, whatever
// a later read would answer: a connection that was reset says so once, and then that it has ended.
pub fn read_whole<R: Read>(input: &mut R, buf: &mut [u8]) -> Result<usize, Unfinished>
    ensures whole { IfOk result (λ n. IsPrefixLen n buf.new) }
    ensures part { IfErr result (λ part. IsPrefixLen part.count buf.new) }
{
    let mut done = 0;
    // Each read says how far this comes, so no range can.
    while done < buf.len() {
        match input.read(&mut buf[done..]) {
            Ok(0) => break,
            Ok(more) => done += more,
            Err(_) => return Err(Unfinished { count: done }),
        }
    }
    Ok(done)
}

// Reads standard input whole into the room lent, and hands it on; the line that is given says where it cannot be read to its end.
pub fn with_input<F: FnOnce(&[u8])>(rt: &HostRuntime, unread: &[u8], room: &mut [u8], then: F)
    requires { F.IsAlwaysCallable then }
{
    match read_whole(&mut rt.stdin(), room) {
        Ok(n) => then(&room[..n]),
        Err(_) => {
            say(&rt.stderr(), unread);
        }
    }
}

// Copies argument i to the start of the room for it; the answer is how many bytes. Of none, and of one that is longer than the room, 0.
pub fn argument<E: Env>(env: &E, i: usize, buf: &mut [u8]) -> usize
    ensures { IsPrefixLen result buf.new }
{
    env.arg(i, buf).unwrap_or(0)
}

// The file with this name, opened for reading, where it can be.
pub fn open<R: Files>(rt: &R, name: &[u8]) -> Option<R::File> {
    match str::from_utf8(name) {
        Ok(path) => File::open(rt, path).ok(),
        Err(_) => None,
    }
}

// Writes bytes, and answers whether all of them were written.
pub fn say<P: Print>(out: &P, bytes: &[u8]) -> bool {
    out.write_all(bytes).is_ok()
}

// Writes a number in decimal, likewise.
pub fn say_number<P: Print>(out: &P, number: u64) -> bool {
    out.print(number).is_ok()
}

// Writes a text, and answers whether all of it was written.
pub fn print<P: Print>(out: &P, text: Text) -> bool {
    say(out, text.as_bytes())
}

// Says on standard error why there is no verdict: the number of the refusal, as figures tell it, and its English line.
pub fn explain<P: Print>(err: &P, number: u32) {
    say(err, b"refused ");
    say_number(err, u64::from(number));
    say(err, b": ");
    print(err, text::english::line(number));
    say(err, b"\n");
}

// Writes what a program answers; a line in its name says where that could not be written whole, and where it is refused, the reason
// follows.
pub fn answer(rt: &HostRuntime, bytes: &[u8], unwritten: &[u8], refusal: Option<Refusal>) {
    if !say(&rt.stdout(), bytes) {
        say(&rt.stderr(), unwritten);
    }
    if let Some(reason) = refusal {
        explain(&rt.stderr(), reason.number());
    }
}
