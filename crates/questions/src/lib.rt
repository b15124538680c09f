// Who owns a tile position, and who is the neighbour of a processor: of a plan by value, or of a plan by its lists, lent, of which nothing is
// copied.
#![tactic(auto)]

ghost use Rattle.std.specs.Prelude.{◌≡◌, ◌%◌, ◌^◌, ◌*◌, ◌<◌, ◌≤◌, length, sum_by, zip, take, drop};
ghost use Rattle.multipartition.specs.Owners.{times, owner_at};
ghost use Rattle.multipartition.specs.Tiles.{is_inside};
ghost use Rattle.multipartition.specs.Neighbours.{turn, next_owner};
ghost use Rattle.multipartition.specs.Questions.{owner_answer, neighbour_answer};
ghost use Rattle.layout.specs.Plans.{rows_from, layout_of};
ghost use Rattle.layout.specs.Lent.{plan_lent};
ghost use Rattle.refusals.specs.Told.{told, told_by, maybe};
ghost use Rattle.questions.specs.Bounds.{Small};
ghost use Rattle.questions.specs.Asks.{Asks};
ghost use Rattle.questions.specs.Told.{told_neighbour, in_32_bits};

pub use crate::reduced::Owners;
use layout::{Plan, PlanLists, ShapedPlan};
use refusals::Refusal;

mod reduced; // reduced.rt: the moduli and the matrix of a plan in shape

// A processor, nobody, or a refusal with its number and place: the enum that document 01 names for this answer.
#[derive(Clone, Copy)]
pub enum Neighbour {
    Processor(u32),
    Nobody,
    Refused { number: u32, place: u32 },
}

// A place above 4,294,967,295 is given as that number; no refusal of a question has one.
impl From<Result<Option<u32>, Refusal>> for Neighbour {
    ghost from_gives = { λ answer neighbour. told_neighbour neighbour ≡ in_32_bits (told_by maybe answer) };

    fn from(answer: Result<Option<u32>, Refusal>) -> Neighbour {
        match answer {
            Ok(Some(q)) => Neighbour::Processor(q),
            Ok(None) => Neighbour::Nobody,
            Err(refusal) => Neighbour::Refused {
                number: refusal.number(),
                place: refusal.place().min(u32::MAX as usize) as u32,
            },
        }
    }
}

// Whether a position has a coordinate for each of the cuts, below it.
pub fn is_inside(cuts: &[u32], position: &[u32]) -> bool
    ensures { result ≡ is_inside cuts.now position.now }
{
    position.len() == cuts.len() && position.iter().zip(cuts).all(|(i, cut)| i < cut)
}

// A row times a position.
fn times(row: &[u32], position: &[u32]) -> u32
    requires { sum_by (λ p. p.0 * p.1) (zip row.now position.now) < 2 ^ 32 }
    ensures { result ≡ sum_by (λ p. p.0 * p.1) (zip row.now position.now) }
{
    row.iter().zip(position).map(|(entry, x)| *entry * *x).sum()
}

// The moduli and the matrix of a plan in shape.
pub fn owners<'a>(shaped: &'a ShapedPlan) -> Owners<'a>
    ensures { Asks shaped.now.plan result }
{
    Owners {
        d: shaped.plan.d,
        moduli: &shaped.plan.moduli,
        matrix: &shaped.plan.matrix,
    }
}

impl<'a> Owners<'a> {
    // Row i times the position, modulo m. Modulo 1, as a plan's first modulus is, there is nothing to add up.
    fn coordinate(self, i: usize, m: u32, position: &[u32]) -> u32
        requires { (1 ≤ m) × (i < self.d) × (Small self.d position.now) × (length position.now ≡ self.d) }
        ensures { result ≡ times (take self.entry.d (drop (i * 5) self.entry.matrix.now)) position.now % m }
    {
        if m == 1 {
            return 0;
        }
        let row = i * 5;
        times(&self.matrix[row..row + self.d], position) % m
    }

    // The owner of a position, its coordinates taken one after the other.
    pub fn owner(self, position: &[u32]) -> u32
        requires { (Small self.d position.now) × (length position.now ≡ self.d) }
        ensures { result ≡ owner_at (take self.entry.d self.entry.moduli.now) (rows_from self.entry.d 0 self.entry.d self.entry.matrix.now) position.now }
    {
        let mut number: u32 = 0;
        for (i, m) in self.moduli[..self.d].iter().enumerate() {
            number = number * *m + self.coordinate(i, *m, position);
        }
        number
    }

    // The neighbour of a processor along dimension k, counted from 0: its coordinates from the last to the first, each turned and put at its place.
    pub fn neighbour(self, k: usize, up: bool, processor: u32) -> u32
        requires { k < self.d }
        ensures { result ≡ next_owner (take self.entry.d self.entry.moduli.now) (rows_from self.entry.d 0 self.entry.d self.entry.matrix.now) k up processor }
    {
        let mut number: u32 = 0;
        let mut radix: u32 = 1;
        let mut rest = processor;
        for (i, m) in self.moduli[..self.d].iter().enumerate().rev() {
            let at = i * 5 + k;
            number = number + turn(up, *m, rest % *m, self.matrix[at]) * radix;
            radix = radix * *m;
            rest = rest / *m;
        }
        number
    }
}

// A coordinate plus an entry (up) or minus it (down), modulo m.
fn turn(up: bool, m: u32, coordinate: u32, entry: u32) -> u32
    requires { (m ≤ 4096) × (coordinate < m) × (entry < m) }
    ensures { result ≡ turn up m coordinate entry }
{
    if up {
        return modulo(m, coordinate + entry);
    }
    modulo(m, coordinate + (m - entry))
}

// Who owns a position, of the plan of lists, lent: one of lists of other lengths than a plan's is out of shape. The C link lends its list and copies
// no plan.
pub fn owner_over(lists: PlanLists, position: &[u32]) -> Result<u32, Refusal>
    ensures { told result ≡ owner_answer (layout_of (plan_lent lists.entry)) position.now }
{
    if !lists.in_shape() {
        return Err(Refusal::Shape);
    }
    if !is_inside(&lists.cuts[..lists.d], position) {
        return Err(Refusal::Range);
    }
    let owners = Owners {
        d: lists.d,
        moduli: lists.moduli,
        matrix: lists.matrix,
    };
    Ok(owners.owner(position))
}

// Who owns a position: the same of a plan by value, which is what document 01 asks for.
pub fn owner_of(plan: Plan, position: &[u32]) -> Result<u32, Refusal>
    ensures { told result ≡ owner_answer (layout_of plan) position.now }
{
    owner_over(plan.lists(), position)
}

// A number below twice m, modulo m.
pub fn modulo(m: u32, number: u32) -> u32
    requires { number < m * 2 }
    ensures { result ≡ number % m }
{
    if number < m {
        return number;
    }
    number - m
}

// The neighbour of a processor along a dimension, counted from 1, up or down, if it has one, of the plan of lists, lent, likewise.
pub fn neighbour_answered(
    lists: PlanLists,
    processor: u32,
    dimension: usize,
    up: bool,
) -> Result<Option<u32>, Refusal>
    ensures { told_by maybe result ≡ neighbour_answer (layout_of (plan_lent lists.entry)) processor dimension up }
{
    if !lists.in_shape() {
        return Err(Refusal::Shape);
    }
    if !(1..=lists.d).contains(&dimension) {
        return Err(Refusal::Dimension);
    }
    if lists.p <= processor {
        return Err(Refusal::Range);
    }
    let k = dimension - 1;
    if lists.cuts[k] == 1 {
        return Ok(None);
    }
    let owners = Owners {
        d: lists.d,
        moduli: lists.moduli,
        matrix: lists.matrix,
    };
    Ok(Some(owners.neighbour(k, up, processor)))
}

// The same as processor, nobody or refusal, the form of document 01.
pub fn neighbour_over(lists: PlanLists, processor: u32, dimension: usize, up: bool) -> Neighbour
    ensures { told_neighbour result ≡ neighbour_answer (layout_of (plan_lent lists.entry)) processor dimension up }
{
    Neighbour::from(neighbour_answered(lists, processor, dimension, up))
}

// Who is the neighbour of a processor along a dimension, counted from 1, up or down: the same of a plan by value.
pub fn neighbour_of(plan: Plan, processor: u32, dimension: usize, up: bool) -> Neighbour
    ensures { told_neighbour result ≡ neighbour_answer (layout_of plan) processor dimension up }
{
    neighbour_over(plan.lists(), processor, dimension, up)
}
