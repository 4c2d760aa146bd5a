// The fixed words of a file: its header, and the names of its rows.
ghost use Rattle.std.specs.Prelude.{◌≡◌};
ghost use Rattle.guard_file.specs.File.{header};
ghost use Rattle.guard_file.specs.Inside.Steps.{word_of, given};

// The two kinds of guards: strict, and bursty.
#[derive(Clone, Copy)]
pub enum Kind {
    Single,
    Burst,
}

pub fn header() -> &'static [u8]
    ensures { result.now ≡ header }
{
    b"guard,n,int,flip,setup,work,expire,count,clear,gap"
}

// Both names have so many letters.
pub const NAME_LEN: usize = 6;

pub fn name(kind: Kind) -> &'static [u8]
    ensures { result.now ≡ word_of kind }
{
    match kind {
        Kind::Single => b"strict",
        Kind::Burst => b"bursty",
    }
}

// Has a guard of this kind a number in field j? A strict one has no n, count and clear, a bursty one no setup.
pub fn given(kind: Kind, j: usize) -> bool
    ensures { result ≡ given kind j }
{
    match kind {
        Kind::Single => !(j == 0) & !(j == 6) & !(j == 7),
        Kind::Burst => !(j == 3),
    }
}
