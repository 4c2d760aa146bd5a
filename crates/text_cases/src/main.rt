// Prints the English line of every number from 0 to 20 and of the greatest, so that each word of the table stands once more.
#![tactic(auto)]

use std::io::Stdout;

// One line: the number, then its words.
fn say(out: Stdout, number: u32) {
    console::say_number(&out, u64::from(number));
    console::say(&out, b": ");
    console::print(&out, text::english::line(number));
    console::say(&out, b"\n");
}

fn main(rt: HostRuntime) {
    let out = rt.stdout();
    for number in 0..21 {
        say(out, number);
    }
    say(out, u32::MAX);
}
