// The fixed words of a file: its headers, and the names of its rows.
ghost use Rattle.std.specs.Prelude.{◌≡◌};
ghost use Rattle.layout.specs.File.{header_of, name_of};

use demand::table::Kind;

// The columns that the header names: the deadline's is the fourth.
#[derive(Clone, Copy)]
pub enum Columns {
    Three,
    Four,
}

pub fn header(columns: Columns) -> &'static [u8]
    ensures { result.now ≡ header_of columns }
{
    match columns {
        Columns::Three => b"kind,cost,period",
        Columns::Four => b"kind,cost,period,deadline",
    }
}

pub fn name(kind: Kind) -> &'static [u8]
    ensures { result.now ≡ name_of kind }
{
    match kind {
        Kind::Task => b"task",
        Kind::Handler => b"handler",
    }
}
