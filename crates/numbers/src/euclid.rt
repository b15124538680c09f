// Euclid's loop.
ghost use Rattle.std.specs.Prelude.{◌≡◌};
ghost use Rattle.numbers.specs.Gcd.{gcd as theGcd};

// The greatest common divisor of a and b.
pub fn gcd(a: u32, b: u32) -> u32
    ensures { result ≡ theGcd a b }
{
    let mut x = a;
    let mut y = b;
    while y != 0 {
        let r = x % y;
        x = y;
        y = r;
    }
    x
}
