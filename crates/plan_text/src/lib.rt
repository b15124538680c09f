// The printer of the plan, into a lent list of bytes. The private functions `put_..` put their text into an output; a byte for which its list has no
// place is left out. The calls hand over whole texts.
#![tactic(auto)]

ghost use Rattle.std.specs.Prelude.{true, [], ◌∷◌, ◌++◌, suc, ◌≤◌, length, take};
ghost use Rattle.numerals.specs.Words.{bytes_of};
ghost use Rattle.numerals.specs.Lines.{line_of};
ghost use Rattle.numerals.specs.Puts.{Puts};
ghost use Rattle.multipartition.specs.Lists.{list_of};
ghost use Rattle.multipartition.specs.Neighbours.{next_owner};
ghost use Rattle.layout.specs.Plans.{rows_from, layout_of};
ghost use Rattle.plan_text.specs.PlanText.{joined, row_line, up_line, plan_text, refused_text};
ghost use Rattle.plan_text.specs.Told.{text_answer, print_answer, Hands};

use layout::{Axis, Plan, ShapedPlan};
use numerals::Output;
use refusals::Refusal;

// The words that open the lines, and the one in the neighbours' stead.
const PLAN: [u8; 5] = *b"plan ";

const CUTS: [u8; 5] = *b"cuts ";

const COST: [u8; 5] = *b"cost ";

const MOD: [u8; 4] = *b"mod ";

const ROW: [u8; 4] = *b"row ";

const UP: [u8; 3] = *b"up ";

const NONE: [u8; 5] = *b"none\n";

const REFUSED: [u8; 8] = *b"refused ";

// No plan has more bytes, and no refusal (proofs/Lengths).
pub const LONGEST_PLAN: usize = 102667;

const LONGEST_REFUSED: usize = 50;

// A word and a line of numbers.
fn put_line(out: &mut Output, word: &[u8], numbers: &[u32])
    ensures { Puts out.old (word.now ++ line_of numbers.now) out.new }
{
    out.bytes(word);
    out.numbers(numbers);
}

// The line of the cost.
fn put_cost(out: &mut Output, cost: u64)
    ensures { Puts out.old (bytes_of "cost " ++ line_of (cost ∷ [])) out.new }
{
    out.bytes(&COST);
    out.decimal(cost);
    out.byte(b'\n');
}

// The lines of the d rows.
fn put_rows(out: &mut Output, shaped: ShapedPlan)
    ensures { Puts out.old (joined shaped.plan.d (row_line (layout_of shaped.plan).matrix)) out.new }
{
    let d = shaped.plan.d;
    let (rows, _) = shaped.plan.matrix.as_chunks::<5>();
    for row in &rows[..d] {
        put_line(out, &ROW, &row[..d]);
    }
}

// The upward neighbours of processors 0 to p - 1 along a dimension. `Output::numbers` would take them as a list of up to 4,096 places.
fn put_neighbours(out: &mut Output, axis: Axis)
    ensures { Puts out.old (line_of (list_of 0 axis.shaped.plan.p (next_owner (take axis.shaped.plan.d axis.shaped.plan.moduli) (rows_from axis.shaped.plan.d 0 axis.shaped.plan.d axis.shaped.plan.matrix) axis.k true))) out.new }
{
    let owners = questions::owners(&axis.shaped);
    let k = axis.k;
    out.decimal(u64::from(owners.neighbour(k, true, 0)));
    for q in 1..axis.shaped.plan.p {
        out.byte(b' ');
        out.decimal(u64::from(owners.neighbour(k, true, q)));
    }
    out.byte(b'\n');
}

// The line of the neighbours along a dimension.
fn put_up(out: &mut Output, axis: Axis)
    ensures { Puts out.old (up_line (layout_of axis.shaped.plan) (suc axis.k)) out.new }
{
    out.bytes(&UP);
    out.decimal(axis.k as u64 + 1);
    out.byte(b' ');
    if axis.cut() == 1 {
        out.bytes(&NONE);
        return;
    }
    put_neighbours(out, axis);
}

// The lines of the neighbours.
fn put_ups(out: &mut Output, shaped: ShapedPlan)
    ensures { Puts out.old (joined shaped.plan.d (λ i. up_line (layout_of shaped.plan) (suc i))) out.new }
{
    // An index: it is the place of the dimension, by which an axis is made.
    for k in 0..shaped.plan.d {
        put_up(out, Axis { shaped, k });
    }
}

// The lines of a plan.
fn put_plan(out: &mut Output, shaped: ShapedPlan)
    ensures { Puts out.old (plan_text (layout_of shaped.plan)) out.new }
{
    let plan = shaped.plan;
    let d = plan.d;
    put_line(out, &PLAN, &[plan.p, d as u32]);
    put_line(out, &CUTS, &plan.cuts[..d]);
    put_cost(out, plan.cost);
    put_line(out, &MOD, &plan.moduli[..d]);
    put_rows(out, shaped);
    put_ups(out, shaped);
}

// The line of a refusal.
fn put_refused(out: &mut Output, number: u64, place: u64)
    ensures { Puts out.old (refused_text number place) out.new }
{
    out.bytes(&REFUSED);
    out.decimal(number);
    out.byte(b' ');
    out.decimal(place);
    out.byte(b'\n');
}

// A whole text to the front of the lent list, if there is room for all of it, and how many bytes it has.
fn hand_over(text: &[u8], out: &mut [u8]) -> Result<usize, Refusal>
    ensures { Hands (text_answer text.now (length out.old)) result out.old out.new }
{
    let n = text.len();
    if out.len() < n {
        return Err(Refusal::Room);
    }
    out[..n].copy_from_slice(text);
    Ok(n)
}

// Prints a refusal.
pub fn print_refused(number: u64, place: u64, out: &mut [u8]) -> Result<usize, Refusal>
    ensures { Hands (text_answer (refused_text number place) (length out.old)) result out.old out.new }
{
    let mut list = [0u8; LONGEST_REFUSED];
    let mut text = Output::new(&mut list);
    put_refused(&mut text, number, place);
    let n = text.at;
    hand_over(&list[..n], out)
}

// Prints a plan. The text is made in a list of its own, since its length is known only then and a refusal leaves the lent list as it was.
pub fn print_plan(plan: Plan, out: &mut [u8]) -> Result<usize, Refusal>
    ensures { Hands (print_answer (layout_of plan) (length out.old)) result out.old out.new }
{
    let shaped = plan.checked()?;
    let mut list = [0u8; LONGEST_PLAN];
    let mut text = Output::new(&mut list);
    put_plan(&mut text, shaped);
    let n = text.at;
    hand_over(&list[..n], out)
}
