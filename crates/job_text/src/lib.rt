// The reader of the job line: 2 to 17 decimal numbers with one space between and a newline after the last.
#![tactic(auto)]

ghost use Rattle.std.specs.Prelude.{◌≡◌, [], ◌-◌};
ghost use Rattle.job_text.specs.Told.{Reads};
ghost use Rattle.job_text.specs.Machine.{between, inside, after_digit, after_space, after_newline, step};
ghost use Rattle.job_text.specs.Readings.{state_of, state_or_astray};

use crate::unfinished::Unfinished;
use arrayvec::ArrayVec;
use refusals::Refusal;

mod unfinished; // unfinished.rt: the numbers of a line before its newline

// The most numbers that a line has.
const MOST: usize = 17;

// The numbers of a line.
pub type Numbers = ArrayVec<u32, MOST>;

// Where the reader stands: a number is to begin; within a number, whose digits so far have this value; past the newline.
#[derive(Drop)]
enum Reading {
    Between(Unfinished),
    Inside(Unfinished, u32),
    Finished(Numbers),
}

// After a byte the reader stands somewhere, or no readable line begins so.
impl Unfinished {
    // A byte where a number is to begin.
    fn begin(self, b: u8) -> Option<Reading>
        ensures { state_or_astray result ≡ step (between self.numbers.items) b }
    {
        if b.is_ascii_digit() {
            return Some(Reading::Inside(self, u32::from(b - b'0')));
        }
        None
    }

    // A digit after digits of value v.
    fn after_digit(self, v: u32, d: u8) -> Option<Reading>
        ensures { state_or_astray result ≡ after_digit self.numbers.items v d }
    {
        if v == 0 {
            return None;
        }
        let next = v.checked_mul(10)?.checked_add(u32::from(d))?;
        Some(Reading::Inside(self, next))
    }

    // A space after a number of value v.
    fn after_space(self, v: u32) -> Option<Reading>
        ensures { state_or_astray result ≡ after_space self.numbers.items v }
    {
        let mut numbers = self.numbers;
        if numbers.len() + 1 < MOST {
            numbers.push(v);
            return Some(Reading::Between(Unfinished { numbers }));
        }
        None
    }

    // A newline after a number of value v.
    fn after_newline(self, v: u32) -> Option<Reading>
        ensures { state_or_astray result ≡ after_newline self.numbers.items v }
    {
        let mut numbers = self.numbers;
        if numbers.is_empty() {
            return None;
        }
        numbers.push(v);
        Some(Reading::Finished(numbers))
    }

    // A byte after digits of value v.
    fn go_on(self, v: u32, b: u8) -> Option<Reading>
        ensures { state_or_astray result ≡ step (inside self.numbers.items v) b }
    {
        if b.is_ascii_digit() {
            return self.after_digit(v, b - b'0');
        }
        if b == b' ' {
            return self.after_space(v);
        }
        if b == b'\n' {
            return self.after_newline(v);
        }
        None
    }
}

impl Reading {
    // Before the first byte.
    fn start() -> Reading
        ensures { state_of result ≡ between [] }
    {
        Reading::Between(Unfinished {
            numbers: ArrayVec::new(),
        })
    }

    // A byte.
    fn take_byte(self, b: u8) -> Option<Reading>
        ensures { state_or_astray result ≡ step (state_of self) b }
    {
        match self {
            Reading::Between(unfinished) => unfinished.begin(b),
            Reading::Inside(unfinished, v) => unfinished.go_on(v, b),
            Reading::Finished(_) => None,
        }
    }
}

// Reads a job line.
pub fn read_job(text: &[u8]) -> Result<Numbers, Refusal>
    ensures { Reads text.now result }
{
    let mut reading = Reading::start();
    for (i, b) in text.iter().enumerate() {
        reading = reading.take_byte(*b).ok_or(Refusal::Text(i + 1))?;
    }
    let Reading::Finished(numbers) = reading else {
        return Err(Refusal::Text(text.len() + 1));
    };
    Ok(numbers)
}
