// Names of tasks: `T` and the row in decimal, as in `T0` and `T12`.
ghost use Rattle.std.specs.Prelude.{◌≡◌};
ghost use Rattle.trim_file.specs.Names.{row_named};

use text::spelled;

// The first number that has more digits than a name may have; no table has such a row.
const ROW_LIMIT: u64 = 10_000_000;

// The row that a name says, or one that no table has where it is no task's name: it is refused as such a row is (`row_named`).
pub fn row_named(name: &[u8]) -> usize
    ensures { result ≡ row_named name.now }
{
    match name.strip_prefix(b"T") {
        // usize has no From of u64; what is no number is the limit, so that 18 refuses it as such a row.
        Some(digits) => spelled::number(ROW_LIMIT, digits).unwrap_or(ROW_LIMIT) as usize,
        None => ROW_LIMIT as usize,
    }
}
