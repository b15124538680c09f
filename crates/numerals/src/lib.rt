// Decimal numbers and lines of them, written into a lent list of bytes. A byte for which the list has no place is left out.
#![tactic(auto)]

ghost use Rattle.std.specs.Prelude.{◌≡◌, [], ◌∷◌, ◌<◌};
ghost use Rattle.numerals.specs.Decimal.{digit, decimal};
ghost use Rattle.numerals.specs.Lines.{line_of};
ghost use Rattle.numerals.specs.Puts.{Puts, Starts};

// A lent list of bytes, and the place in it where the next byte goes.
#[derive(Drop)]
pub struct Output<'a> {
    pub list: &'a mut [u8],
    pub at: usize,
}

impl<'a> Output<'a> {
    // From the front of a list on.
    pub fn new(list: &'a mut [u8]) -> Output<'a>
        ensures { Starts list.entry result }
    {
        Output { list, at: 0 }
    }

    // One byte.
    pub fn byte(&mut self, b: u8)
        ensures { Puts self.old (b ∷ []) self.new }
    {
        if self.at < self.list.len() {
            self.list[self.at] = b;
            self.at += 1;
        }
    }

    // Bytes, one after the other.
    pub fn bytes(&mut self, bytes: &[u8])
        ensures { Puts self.old bytes.now self.new }
    {
        for b in bytes {
            self.byte(*b);
        }
    }

    // A number in decimal digits.
    pub fn decimal(&mut self, n: u64)
        ensures { Puts self.old (decimal n) self.new }
    {
        let mut buffer = itoa::Buffer::new();
        let digits = buffer.format(n);
        self.bytes(digits.as_bytes());
    }

    // Numbers with one space between and a newline after the last.
    pub fn numbers(&mut self, numbers: &[u32])
        ensures { Puts self.old (line_of numbers.now) self.new }
    {
        let Some((first, rest)) = numbers.split_first() else {
            return;
        };
        self.decimal(u64::from(*first));
        for n in rest {
            self.byte(b' ');
            self.decimal(u64::from(*n));
        }
        self.byte(b'\n');
    }
}

// The byte of a digit. No crate here asks for it; it is public and stays.
pub fn digit_byte(d: u64) -> u8
    requires { d < 10 }
    ensures { result ≡ digit d }
{
    (48 + d) as u8
}
