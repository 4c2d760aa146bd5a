// The greatest common divisor: what H and a period of the handlers are built with.
#![tactic(auto)]

ghost use Rattle.std.specs.Prelude.{◌≡◌};
ghost use Rattle.euclid.specs.Euclid.{gcd};

// The greatest common divisor: Euclid's rule, whose second number falls.
pub fn gcd(a: u64, b: u64) -> u64
    ensures { result ≡ gcd a b }
{
    if b == 0 { a } else { gcd(b, a % b) }
}
