// What two divisors share, their greatest common divisor: a table of it stands behind the places of the divisors, if the list has room for it.
ghost use Rattle.std.specs.Prelude.{◌≡◌, ◌*◌, ◌/◌, ◌≤◌, ◌<◌, length};
ghost use Rattle.numbers.specs.Gcd.{gcd as theGcd};
ghost use Rattle.cuts.specs.Questions.{cofactor_of, Among, Divisors, Posed};
ghost use Rattle.cuts.specs.Memory.{Placed};
ghost use Rattle.cuts.specs.Pairs.{PairAt, Shares};

use crate::known::place_of;
use crate::tables::Tables;
use numbers::euclid::gcd;

// The place of the pair of the i-th and the j-th divisor, in either order.
fn pair_at(i: usize, j: usize) -> usize
    requires { (i < 256) × (j < 256) }
    ensures { PairAt i j result }
{
    if i < j {
        return 4097 + j * (j + 1) / 2 + i;
    }
    4097 + i * (i + 1) / 2 + j
}

impl Tables<'_> {
    // The greatest common divisor of two divisors, looked up where the list has it.
    pub fn shared(&self, x: u32, y: u32) -> u32
        requires { Among self.now.divisors.now (length self.now.divisors.now) x × Among self.now.divisors.now (length self.now.divisors.now) y }
        ensures { result ≡ theGcd x y }
    {
        match self.places.get(pair_at(place_of(self.places, x), place_of(self.places, y))) {
            Some(place) => self.divisors[usize::from(*place)],
            None => gcd(x, y),
        }
    }

    // What is spare after a cut t, one of the divisors, that takes g of `each`.
    pub fn spare_left(&self, spare: u32, t: u32, g: u32) -> u32
        requires { Among self.now.divisors.now (length self.now.divisors.now) spare × Among self.now.divisors.now (length self.now.divisors.now) t × (0 < spare) × (g * spare ≤ 4096) }
        ensures { result ≡ g * (spare / theGcd spare t) }
    {
        if spare == 1 {
            return g;
        }
        g * (spare / self.shared(spare, t))
    }

    // The number whose divisors, times the unit, are all the first cuts that need be tried.
    pub fn cofactor_of(&self, left: usize, spare: u32, each: u32) -> u32
        requires { Posed self.now.divisors.now spare each }
        ensures { result ≡ cofactor_of left spare each }
    {
        if left == 2 {
            return spare / self.shared(spare, each);
        }
        spare * each
    }
}

// Sets the table, as far as the list goes: the place of what the i-th and the j-th divisor share, for each j up to i.
pub fn set_shared(divisors: &[u32], places: &mut [u8])
    requires { Divisors divisors.now × Placed divisors.now places.old }
    ensures { Placed divisors.now places.new × Shares divisors.now places.new }
{
    // An index: `at` goes on through the rows, and places before it are read.
    let mut at = 4097;
    for (i, x) in divisors.iter().enumerate() {
        for y in &divisors[..=i] {
            if places.len() <= at {
                return;
            }
            places[at] = place_of(places, gcd(*x, *y)) as u8;
            at += 1;
        }
    }
}
