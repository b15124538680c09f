// The diagonal layouts: the answer to a job is a diagonal plan or a refusal.
#![tactic(auto)]

ghost use Rattle.std.specs.Prelude.{◌≡◌, ◌++◌, ◌∷◌, ◌-◌, ◌*◌, ◌≤◌, leb, length, replicate, sum, take};
ghost use Rattle.multipartition.specs.Cuts.{cost_of};
ghost use Rattle.multipartition.specs.Plans.{least_of};
ghost use Rattle.refusals.specs.Told.{told};
ghost use Rattle.layout.specs.Plans.{five, flat, plan_of};
ghost use Rattle.planner.specs.Asked.{asked};
ghost use Rattle.planner.specs.Planned.{planned_answer, passed_job};
ghost use Rattle.diagonal.specs.Diagonal.{diagonal_cuts, diagonal_matrix, diagonal_plan, suited_side, side_fits, diagonal_answer};

use layout::Plan;
use planner::{Job, PassedJob, padded};
use refusals::Refusal;

// A number whose square is at most p, in steps of eight: from it and `square_side` the root is found sooner than by `isqrt`, a search by halves.
fn root_by_eights(p: u32) -> u32
    requires { p ≤ 4096 }
    ensures { (result ≤ 64) × (result * result ≤ p) }
{
    let mut s: u32 = 0;
    while (s + 8) * (s + 8) <= p {
        s = s + 8;
    }
    s
}

// The s with s * s = p, if there is one.
fn square_side(p: u32) -> Option<u32>
    requires { (1 ≤ p) × (p ≤ 4096) }
    ensures { result ≡ suited_side 3 p }
{
    let mut s = root_by_eights(p);
    while (s + 1) * (s + 1) <= p {
        s = s + 1;
    }
    if s * s == p { Some(s) } else { None }
}

// The side of the layout for p processors: p in two dimensions, the square root of p in three. Else p or d does not suit it.
fn side_of(d: usize, p: u32) -> Option<u32>
    requires { (2 ≤ d) × (1 ≤ p) × (p ≤ 4096) }
    ensures { result ≡ suited_side d p }
{
    match d {
        2 => Some(p),
        3 => square_side(p),
        _ => None,
    }
}

// Whether s slabs of a least thickness fit an extent.
fn slabs_fit(s: u32, extent: u32, least: u32) -> bool
    ensures { result ≡ leb (s * least) extent }
{
    u64::from(s) * u64::from(least) <= u64::from(extent)
}

// Whether s cuts each way fit, with these least thicknesses.
fn side_fits(s: u32, extents: &[u32], least: &[u32]) -> bool
    requires { length extents.now ≤ length least.now }
    ensures { result ≡ side_fits s extents.now least.now }
{
    extents
        .iter()
        .zip(least)
        .all(|(extent, least)| slabs_fit(s, *extent, *least))
}

// Whether s slabs of any thickness fit each extent.
fn side_within(s: u32, extents: &[u32]) -> bool
    ensures { result ≡ side_fits s extents.now (replicate (length extents.now) 1) }
{
    extents.iter().all(|extent| s <= *extent)
}

// Whether s cuts each way fit, by the list of least thicknesses given. No list of ones is made for this (docs/DECISIONS.md 43).
fn cuts_fit(s: u32, extents: &[u32], given: &[u32]) -> bool
    requires { length (least_of (length extents.now) given.now) ≡ length extents.now }
    ensures { result ≡ side_fits s extents.now (least_of (length extents.now) given.now) }
{
    if given.is_empty() {
        return side_within(s, extents);
    }
    side_fits(s, extents, given)
}

// The sum of the weights.
fn total(weights: &[u32]) -> u64
    requires { length weights.now ≤ 3 }
    ensures { result ≡ sum weights.now }
{
    weights.iter().map(|w| u64::from(*w)).sum()
}

// What s cuts each way cost.
fn cost_of(s: u32, weights: &[u32]) -> u64
    requires { (1 ≤ s) × (s ≤ 4096) × (length weights.now ≤ 3) }
    ensures { result ≡ cost_of weights.now (diagonal_cuts (length weights.now) s) }
{
    u64::from(s - 1) * total(weights)
}

// The number `first` and d - 1 times s, with zeros after them: the cuts and the moduli.
fn with_sides(d: usize, first: u32, s: u32) -> [u32; 5]
    requires { (2 ≤ d) × (d ≤ 3) }
    ensures { result ≡ five (first ∷ replicate (d - 1) s) }
{
    padded(&[first, s, s][..d])
}

// The matrix, its rows five places apart: row 1 is zero; row 2 is 1 s-1 in two dimensions; in three, row 2 is 1 0 s-1 and row 3 is 0 1 s-1. Modulo
// s, the 1 is 0 where s is 1.
fn matrix_of(d: usize, s: u32) -> [u32; 25]
    requires { (2 ≤ d) × (d ≤ 3) × (1 ≤ s) }
    ensures { result ≡ take 25 (flat (diagonal_matrix d s) ++ replicate 25 0) }
{
    let mut matrix: [u32; 25] = [0; 25];
    matrix[5] = 1 % s;
    if d == 2 {
        matrix[6] = s - 1;
        return matrix;
    }
    matrix[7] = s - 1;
    matrix[11] = 1 % s;
    matrix[12] = s - 1;
    matrix
}

// The plan with s cuts each way.
fn plan_with(s: u32, passed: PassedJob) -> Plan
    requires { (passed.job.d ≤ 3) × (1 ≤ s) × (s ≤ 4096) }
    ensures { result ≡ plan_of (diagonal_plan (passed_job passed.entry) s) }
{
    let Job {
        p,
        d,
        extents,
        weights,
        least: _,
    } = passed.job;
    Plan {
        d,
        p,
        extents: padded(extents),
        weights: padded(weights),
        cuts: with_sides(d, s, s),
        cost: cost_of(s, weights),
        moduli: with_sides(d, 1, s),
        matrix: matrix_of(d, s),
        kind: 1,
        least: passed.thicknesses(),
    }
}

// The answer to a job: its diagonal plan.
pub fn diagonal_job(job: Job) -> Result<Plan, Refusal>
    ensures { told result ≡ planned_answer (diagonal_answer (asked job.entry)) }
{
    job.sizes_checked()?;
    let s = side_of(job.d, job.p).ok_or(Refusal::Unsuited)?;
    let passed = job.lists_checked()?;
    if !cuts_fit(s, job.extents, job.least) {
        return Err(Refusal::NoCuts);
    }
    Ok(plan_with(s, passed))
}
