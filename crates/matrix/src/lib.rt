// The moduli and the matrix of given cuts.
#![tactic(auto)]

ghost use Rattle.std.specs.Prelude.{◌≡◌, ◌++◌, ℕ, suc, ◌+◌, ◌-◌, ◌*◌, ◌%◌, ◌<◌, ◌≤◌, pos, length, take, replicate};
ghost use Rattle.multipartition.specs.Moduli.{moduli_of};
ghost use Rattle.multipartition.specs.Matrix.{matrix_of};
ghost use Rattle.layout.specs.Plans.{five, flat};
ghost use Rattle.matrix.specs.Rows.{start_at, at, Moderate, Multipliers, Bounded, StandsFor, Dividing, Finished, Before, reduced_at};

use numbers::euclid::gcd;

// The moduli, from the last dimension to the first: each is what its cut shares with what the later ones leave of p.
pub fn moduli_of(p: u32, cuts: &[u32]) -> [u32; 5]
    requires { (1 ≤ p) × (length cuts.now ≤ 5) }
    ensures { result ≡ five (moduli_of p cuts.now) }
{
    let mut moduli = [0; 5];
    let mut left = p;
    // An index: it is the place of the cut that is read and of the modulus that is written.
    for i in (0..cuts.len()).rev() {
        let m = gcd(left, cuts[i]);
        moduli[i] = m;
        left = left / m;
    }
    moduli
}

// Column c of row i as it starts.
fn started(i: usize, c: usize) -> u32
    ensures { (start_at i (suc c) ≡ pos result) × (result ≤ 1) }
{
    if c == 0 || c == i { 1 } else { 0 }
}

// x less t times y, modulo p.
fn less(p: u32, x: u32, t: u32, y: u32) -> u32
    requires { (1 ≤ p) × (p ≤ 4096) × (x ≤ 4096) × (t ≤ 4096) × (y ≤ 4096) }
    ensures { (result ≡ (x + (p - t * y % p)) % p) × (result < p) }
{
    (x + (p - t * y % p)) % p
}

// The multipliers of row i at the places of the rows that it takes, from row i - 1 down to row 1.
fn multipliers(cuts: &[u32], moduli: &[u32; 5], i: usize) -> [u32; 5]
    requires { (i < length cuts.now) × (i < 5) × Moderate moduli.now i }
    ensures { Multipliers cuts.now moduli.now result i }
{
    let mut ts = [0; 5];
    let mut r = moduli[i];
    // An index: j is the place in two lists that are read and in one that is written.
    for j in (1..i).rev() {
        let t = r / gcd(r, cuts[j]);
        ts[j] = t;
        r = gcd(t * moduli[j], r);
    }
    ts
}

// Column c of row i modulo p, from the row's multipliers and the same column of the rows before it.
fn entry(p: u32, ts: &[u32; 5], rows: &[u32; 25], i: usize, c: usize) -> u32
    requires { (1 ≤ p) × (p ≤ 4096) × (i < 5) × (c < 5) × Bounded ts.now rows.now i c }
    ensures { (result ≤ 4096) × StandsFor p ts.now rows.now i c result }
{
    let mut x = started(i, c);
    // An index: the numbers of a column stand five places apart.
    for j in (1..i).rev() {
        x = less(p, x, ts[j], rows[j * 5 + c]);
    }
    x
}

// Row i modulo p, after the rows before it.
fn finish_row(p: u32, cuts: &[u32], moduli: &[u32; 5], rows: &mut [u32; 25], i: usize)
    requires { (i < length cuts.now) × Before p cuts.now moduli.now rows.old i 0 }
    ensures { Finished p cuts.now moduli.now rows.new (i * 5 + 5) }
{
    let ts = multipliers(cuts, moduli, i);
    // An index: the column that is asked for says where it is written, in the list that is read.
    for c in 0..5usize {
        let place = i * 5 + c;
        rows[place] = entry(p, &ts, rows, i, c);
    }
}

// All rows modulo p, one after the other. p, cuts and moduli stay three parameters: two public calls take them, of which each has others beside them.
fn finish_rows(p: u32, cuts: &[u32], moduli: &[u32; 5]) -> [u32; 25]
    requires { (1 ≤ p) × (p ≤ 4096) × (length cuts.now ≤ 5) × (Dividing p moduli.now (length cuts.now)) }
    ensures { Finished p cuts.now moduli.now result (length cuts.now * 5) }
{
    let mut rows = [0; 25];
    // The number of a row: no list is read here.
    for i in 0..cuts.len() {
        finish_row(p, cuts, moduli, &mut rows, i);
    }
    rows
}

// Place n of the matrix: the remainder by the row's modulus, and zero past row and column d.
fn reduced(moduli: &[u32; 5], rows: &[u32; 25], d: usize, n: usize) -> u32
    requires { (d ≤ 5) × (n < 25) × ((k : ℕ) → k < d → 1 ≤ at moduli.now k) }
    ensures { result ≡ reduced_at moduli.now rows.now d n }
{
    let i = n / 5;
    let c = n % 5;
    if d <= i || d <= c {
        return 0;
    }
    rows[n] % moduli[i]
}

// The matrix: the finished rows, each reduced by its modulus only after the last row.
pub fn matrix_of(p: u32, cuts: &[u32], moduli: &[u32; 5]) -> [u32; 25]
    requires { (1 ≤ p) × (p ≤ 4096) × (length cuts.now ≤ 5) × (moduli.now ≡ five (moduli_of p cuts.now)) }
    ensures { result ≡ take 25 (flat (matrix_of p cuts.now) ++ replicate 25 0) }
{
    let rows = finish_rows(p, cuts, moduli);
    let mut matrix = [0; 25];
    // An index: `array::from_fn` would take a closure that says the clauses of `reduced` once more.
    for n in 0..25 {
        matrix[n] = reduced(moduli, &rows, cuts.len(), n);
    }
    matrix
}
