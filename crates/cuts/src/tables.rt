// What a search is given and looks things up in.
ghost use Rattle.std.specs.Prelude.{◌≡◌};
ghost use Rattle.numbers.specs.Divisors.{divisors_of};
ghost use Rattle.cuts.specs.Pairs.{Shares};
ghost use Rattle.cuts.specs.Given.{Asked};

// The count of processors, the largest cut and the weight of each dimension, the divisors of the count, and the table over these: the place of each
// divisor, and behind it what two divisors share, as far as the list goes.
#[derive(Clone, Copy)]
pub struct Tables<'a> {
    pub p: u32,
    pub most: &'a [u32],
    pub weights: &'a [u32],
    pub divisors: &'a [u32],
    pub places: &'a [u8],
    ghost asked: { Asked p most.now weights.now },
    ghost divided: { divisors.now ≡ divisors_of p },
    ghost table: { Shares divisors.now places.now },
}
