// The moduli and the matrix of a plan in shape, lent, as a value that carries what keeps sums and products of the two questions within 32 bits.
ghost use Rattle.std.specs.Prelude.{◌≡◌, length};
ghost use Rattle.questions.specs.Bounds.{Reduced};

// Row i of the matrix stands at places 5 * i on.
#[derive(Clone, Copy)]
pub struct Owners<'a> {
    pub d: usize,
    pub moduli: &'a [u32],
    pub matrix: &'a [u32],
    ghost reduced: { Reduced d moduli.now matrix.now },
    ghost places: { length matrix.now ≡ 25 },
}
