// Reads names of table files from standard input, one a line, and a quantum as its argument. Prints a line for each table as soon as it is
// done: its exact verdict beside two other ways of charging handlers; and at the end how many fit, miss or say nothing. What is refused is
// told on standard error, with the number of the line of the list. Where the list could not be read to its end, or a line not written
// whole, a line on standard error says so, and there are no counts.
#![tactic(auto)]

mod list;

use charge_lines::counts::{Counts, Way};
use charge_lines::{counts, files};
use charges::QUANTUM_MOST;
use charges::figures::Figures;
use demand::refusal::Refusal;
use layout::reader::FILE_MOST;
use std::fs::File;
use text::spelled;

// One byte more than a file may have is read, so that a longer one is known as such.
const READ_MOST: usize = FILE_MOST + 1;

// A byte more than a name may have, likewise.
const NAME_ROOM: usize = charge_lines::NAME_MOST + 1;

// The first number with more digits than the argument may have; no quantum is so long.
const QUANTUM_LIMIT: u64 = 1_000_000;

const ARGUMENT_MOST: usize = 16;

fn main(rt: HostRuntime) {
    let mut digits = [0u8; ARGUMENT_MOST];
    let k = console::argument(&rt, 1, &mut digits);
    console::say(
        &rt.stdout(),
        b"name,exact,code,load,quantum,quantum load,task,task load\r\n",
    );
    match spelled::number(QUANTUM_LIMIT, &digits[..k]) {
        Some(quantum @ 1..=QUANTUM_MOST) => all(&rt, quantum),
        _ => {
            if !print(
                &rt,
                b"",
                files::refused(Refusal::QuantumOutOfRange.number()),
            ) {
                unwritten(&rt);
            }
            console::explain(&rt.stderr(), Refusal::QuantumOutOfRange.number());
        }
    }
}

// The figures of the file with this name: 12 where it cannot be opened or read to its end.
fn of_name(rt: &HostRuntime, name: &[u8], quantum: u64) -> Figures {
    match console::open(rt, name) {
        None => files::refused(Refusal::FileMalformed.number()),
        Some(file) => of_open(file, quantum),
    }
}

// The figures of an opened file.
fn of_open(mut file: File, quantum: u64) -> Figures {
    let mut input = [0u8; READ_MOST];
    match console::read_whole(&mut file, &mut input) {
        Ok(n) => files::of_file(&input[..n], quantum),
        Err(_) => files::refused(Refusal::FileMalformed.number()),
    }
}

// Prints a line, and answers whether it was written whole.
fn print(rt: &HostRuntime, name: &[u8], figures: Figures) -> bool {
    let line = charge_lines::of_table(name, figures);
    console::say(&rt.stdout(), line.as_bytes())
}

fn unwritten(rt: &HostRuntime) {
    console::say(
        &rt.stderr(),
        b"charges: a line could not be written whole\n",
    );
}

// The greatest number of a refusal, and more.
const NUMBER_MOST: u64 = 99;

// Says why the table in a line of the list is refused; figures tell its number alone.
fn explain(rt: &HostRuntime, line: u64, number: u64) {
    if (number == 0) | (NUMBER_MOST < number) {
        return;
    }
    console::say(&rt.stderr(), b"line ");
    console::say_number(&rt.stderr(), line);
    console::say(&rt.stderr(), b": ");
    // A refusal's number, which is small: figures have it as a u64 since C reads them.
    console::explain(&rt.stderr(), number as u32);
}

// The counts of each way of charging.
#[derive(Clone, Copy)]
struct Tally {
    exact: Counts,
    quantum: Counts,
    task: Counts,
}

impl Tally {
    fn start() -> Tally {
        Tally {
            exact: counts::start(),
            quantum: counts::start(),
            task: counts::start(),
        }
    }

    // A line more.
    fn with(self, figures: Figures) -> Tally {
        Tally {
            exact: counts::add(self.exact, figures.exact),
            quantum: counts::add(self.quantum, figures.quantum),
            task: counts::add(self.task, figures.task),
        }
    }
}

// The lines of all tables, and their counts.
fn all(rt: &HostRuntime, quantum: u64) {
    let mut tally = Tally::start();
    for before in 0..u64::MAX {
        let mut room = [0u8; NAME_ROOM];
        match list::next(&mut rt.stdin(), &mut room) {
            Ok(Some(n)) => {
                let name = &room[..n];
                let figures = of_name(rt, name, quantum);
                explain(rt, before + 1, figures.code);
                if !print(rt, name, figures) {
                    return unwritten(rt);
                }
                tally = tally.with(figures);
            }
            Ok(None) => return close(rt, tally),
            Err(_) => return unread(rt),
        }
    }
}

fn unread(rt: &HostRuntime) {
    console::say(
        &rt.stderr(),
        b"charges: the list could not be read to its end\n",
    );
}

// The counts, where the list was read to its end.
fn close(rt: &HostRuntime, tally: Tally) {
    let a = console::say(&rt.stdout(), b"charge,fits,misses,none\r\n");
    let b = console::print(&rt.stdout(), counts::line(Way::Exact, tally.exact));
    let c = console::print(&rt.stdout(), counts::line(Way::Quantum, tally.quantum));
    let d = console::print(&rt.stdout(), counts::line(Way::Task, tally.task));
    if !(a & b & c & d) {
        console::say(
            &rt.stderr(),
            b"charges: the counts could not be written whole\n",
        );
    }
}
