// The least factors and the divisors of the numbers up to 4096, by a table of least factors.
ghost use Rattle.std.specs.Prelude.{◌≡◌, ◌*◌, ◌^◌, ◌<◌, ◌≤◌, ◌↔◌, IsSome, unwrap_or, get_or, drop};
ghost use Rattle.numbers.specs.Sums.{same};
ghost use Rattle.numbers.specs.LeastFactor.{least_factor, least_factor_answer, Prime};
ghost use Rattle.numbers.specs.Divisors.{divisors_of, divisors_answer};

use crate::entries::LEAST;
use arrayvec::ArrayVec;

// The least factor above 1 of n, which is its least prime factor; none below 2 and above 4096.
pub fn least_factor(n: usize) -> Option<u16>
    ensures some { IsSome result ↔ (1 < n) × (n ≤ 4096) }
    ensures value { unwrap_or result 0 ≡ least_factor_answer n }
{
    if n < 2 || n > 4096 {
        return None;
    }
    Some(least(n))
}

// The entry of the table at n.
fn least(n: usize) -> u16
    requires { (1 < n) × (n ≤ 4096) }
    ensures { result ≡ least_factor n }
{
    LEAST[n]
}

// The divisors of n, rising; none of 0 and of the numbers above 4096.
pub fn divisors(n: u32) -> ArrayVec<u32, 128>
    ensures { result.items ≡ divisors_answer n }
{
    if n == 0 || n > 4096 {
        return ArrayVec::new();
    }
    by_factors(n)
}

// The divisors of n, one prime factor after the other: those of `done`, the product of the factors so far.
fn by_factors(n: u32) -> ArrayVec<u32, 128>
    requires { (0 < n) × (n ≤ 4096) }
    ensures { result.items ≡ divisors_of n }
{
    let mut known = ArrayVec::new();
    known.push(1);
    let mut done = 1;
    let mut rest = n;
    while rest > 1 {
        let f = u32::from(least(rest as usize));
        known = times_prime(known.as_slice(), done, f);
        done = f * done;
        rest = rest / f;
    }
    known
}

// The divisors of f * m from those of m. They are the divisors of m and f times these: the two runs are merged,
// and what stands in both is written once. `kept` and `times` are what is not yet written of either.
fn times_prime(older: &[u32], m: u32, f: u32) -> ArrayVec<u32, 128>
    requires m_nonzero { (0 < m) × (f * m ≤ 4096) }
    requires prime { Prime f }
    requires listed { older.now ≡ divisors_of m }
    ensures { result.items ≡ divisors_of (f * m) }
{
    let n = f * m;
    let mut merged = ArrayVec::new();
    let mut kept = older;
    let mut times = older;
    let mut last = 0;
    while last < n {
        let b = f * times[0];
        last = kept.first().copied().unwrap_or(b).min(b);
        merged.push(last);
        kept = past(kept, 1, last);
        times = past(times, f, last);
    }
    merged
}

// One step past the first number of xs, if f times it is the one written.
fn past(xs: &[u32], f: u32, written: u32) -> &[u32]
    requires { f * get_or xs.now 0 0 < 2 ^ 32 }
    ensures { result.now ≡ drop (same (f * get_or xs.now 0 0) written) xs.now }
{
    let Some((first, rest)) = xs.split_first() else {
        return xs;
    };
    if f * first == written { rest } else { xs }
}
