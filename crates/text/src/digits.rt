// Digits, one after the other.
ghost use Rattle.std.specs.Prelude.{true, ◌≡◌, ◌+◌, ◌-◌, ◌*◌};
ghost use Rattle.text.specs.Numbers.{is_digit, continues};

pub fn is_digit(b: u8) -> bool
    ensures { result ≡ is_digit b }
{
    b.is_ascii_digit()
}

// What a digit is worth.
pub fn worth(b: u8) -> u32
    requires { is_digit b ≡ true }
    ensures { result ≡ b - 48 }
{
    u32::from(b - b'0')
}

// May b stand behind the digits of v, in a number below the limit? No digit stands behind a leading zero.
pub fn continues(limit: u64, v: u64, b: u8) -> bool
    ensures { result ≡ continues limit v b }
{
    is_digit(b) & (0 < v) & (v < limit / 10)
}

// The number v with one digit more.
pub fn extended(limit: u64, v: u64, b: u8) -> u64
    requires { continues limit v b ≡ true }
    ensures { result ≡ v * 10 + (b - 48) }
{
    v * 10 + u64::from(worth(b))
}
