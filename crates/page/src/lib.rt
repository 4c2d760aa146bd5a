// A page: texts laid one behind the other over its bytes. For what is longer than a line.
#![tactic(auto)]

ghost use Rattle.std.specs.Prelude.{◌≡◌, length};
ghost use Rattle.page.specs.Laid.{end_of, laid};

// Lays bytes over the page from `at` on, where there is room for all of them; the answer is where they end, or `at` where there is none.
pub fn lay(page: &mut [u8], at: usize, bytes: &[u8]) -> usize
    ensures { (result ≡ end_of (length page.old) at (length bytes.now)) ×
        (page.new ≡ laid page.old at bytes.now) }
{
    let n = bytes.len();
    if page.len() < at {
        return at;
    }
    if page.len() - at < n {
        return at;
    }
    page[at..at + n].copy_from_slice(bytes);
    at + n
}
