// Where the cost of a task stands in a table file, so that its digits can be replaced and every other byte kept.
#![tactic(auto)]

ghost use Rattle.std.specs.Prelude.{◌≡◌, ◌+◌, ◌<◌, length, get_or, drop};
ghost use Rattle.recost.specs.Inside.Scan.{opens, cost_from};

// Does the line of a task begin behind the byte at i? It is the LF of the line before, and a `t` stands behind it.
fn opens(bytes: &[u8], i: usize) -> bool
    requires { i < length bytes.now }
    ensures { result ≡ opens (get_or bytes.now i 0) (drop (i + 1) bytes.now) }
{
    (text::byte_at(bytes, i) == b'\n') & (text::byte_at(bytes, i + 1) == b't')
}

// The bytes of an LF and `task,`.
const BEHIND_NAME: usize = 6;

// Where the cost of the task at this row begins, in a file that is in its layout: behind an LF and `task,`.
pub fn cost_from(bytes: &[u8], row: usize) -> usize
    ensures { result ≡ cost_from bytes.now row }
{
    let mut left = row;
    for i in 0..bytes.len() {
        let begins = opens(bytes, i);
        if begins & (left == 0) {
            return i + BEHIND_NAME;
        }
        left = left.saturating_sub(usize::from(begins));
    }
    bytes.len()
}
