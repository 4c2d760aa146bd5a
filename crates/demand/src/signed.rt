// Signed arithmetic, in one place: three u64 figures make one i64.
ghost use Rattle.std.specs.Prelude.{◌≡◌, ◌^◌, ◌<◌, pos, ◌-ℤ◌};

// l - f - d, as a signed number.
pub fn less_both(l: u64, f: u64, d: u64) -> i64
    requires { (l < 2 ^ 61) × (f < 2 ^ 61) × (d < 2 ^ 61) }
    ensures { result ≡ pos l -ℤ pos f -ℤ pos d }
{
    // Below 2^61 each is the same number with a sign: a conversion that can fail would have nothing to tell.
    l as i64 - f as i64 - d as i64
}
