// Planning: the answer to a job is a plan or a refusal.
#![tactic(auto)]

ghost use Rattle.std.specs.Prelude.{[], ◌∷◌, ◌≡◌, ◌≤◌, length};
ghost use Rattle.multipartition.specs.Answers.{answered, checked};
ghost use Rattle.multipartition.specs.Cuts.{most_of};
ghost use Rattle.multipartition.specs.Jobs.{lengths_check, extents_check, least_check, plan_with, plan_answer, cheapest_for};
ghost use Rattle.refusals.specs.Told.{told, told_by};
ghost use Rattle.layout.specs.Plans.{five};
ghost use Rattle.cuts.specs.Found.{found_of};
ghost use Rattle.planner.specs.Asked.{asked};
ghost use Rattle.planner.specs.Planned.{planned_answer, size_checks, lists_answer, job_answer, passed_job};

pub use crate::jobs::PassedJob;
use cuts::{Found, cheapest_cuts};
use layout::Plan;
use matrix::{matrix_of, moduli_of};
use refusals::Refusal;

mod jobs; // jobs.rt: a job that has passed its checks

// A job as it is asked: its lists are lent. An empty list of least thicknesses stands for 1 in every dimension.
#[derive(Clone, Copy)]
pub struct Job<'a> {
    pub p: u32,
    pub d: usize,
    pub extents: &'a [u32],
    pub weights: &'a [u32],
    pub least: &'a [u32],
}

// Two to five numbers, with zeros after them. They are named one by one: after a copy of the whole list, a single number of it takes long to read.
pub fn padded(numbers: &[u32]) -> [u32; 5]
    requires { (2 ≤ length numbers.now) × (length numbers.now ≤ 5) }
    ensures { result ≡ five numbers.now }
{
    match *numbers {
        [a, b] => [a, b, 0, 0, 0],
        [a, b, c] => [a, b, c, 0, 0],
        [a, b, c, d] => [a, b, c, d, 0],
        [a, b, c, d, e] => [a, b, c, d, e],
        _ => unreachable!(),
    }
}

impl<'a> Job<'a> {
    // The lines 1 and 2 of the table.
    pub fn sizes_checked(self) -> Result<(), Refusal>
        ensures { told result ≡ checked (size_checks (asked self.entry)) (answered tt) }
    {
        if !(2..=5).contains(&self.d) {
            return Err(Refusal::Dimensions);
        }
        if !(1..=4096).contains(&self.p) {
            return Err(Refusal::Processors);
        }
        Ok(())
    }

    // Line 3: there are d extents and weights, and d least thicknesses or none.
    fn lengths_checked(self) -> Result<(), Refusal>
        ensures { told result ≡ checked (lengths_check (asked self.entry) ∷ []) (answered tt) }
    {
        let d = self.d;
        if self.extents.len() != d || self.weights.len() != d {
            return Err(Refusal::Lengths);
        }
        if !self.least.is_empty() && self.least.len() != d {
            return Err(Refusal::Lengths);
        }
        Ok(())
    }

    // Line 4: no extent is out of range.
    pub fn extents_checked(self) -> Result<(), Refusal>
        requires { length self.extents.now ≤ 5 }
        ensures { told result ≡ checked (extents_check (asked self.entry) ∷ []) (answered tt) }
    {
        match self
            .extents
            .iter()
            .position(|n| !(1..=1_000_000).contains(n))
        {
            Some(k) => Err(Refusal::Extent(k as u32 + 1)),
            None => Ok(()),
        }
    }

    // Line 13: no least thickness is 0.
    pub fn least_checked(self) -> Result<(), Refusal>
        requires { length self.least.now ≤ 5 }
        ensures { told result ≡ checked (least_check (asked self.entry) ∷ []) (answered tt) }
    {
        match self.least.iter().position(|t| *t == 0) {
            Some(k) => Err(Refusal::Thickness(k as u32 + 1)),
            None => Ok(()),
        }
    }

    // The lines 3, 4 and 13, of a job that passes 1 and 2.
    pub fn lists_checked(self) -> Result<PassedJob<'a>, Refusal>
        requires { (2 ≤ self.d) × (self.d ≤ 5) × (1 ≤ self.p) × (self.p ≤ 4096) }
        ensures { told_by passed_job result ≡ lists_answer (asked self.entry) }
    {
        self.lengths_checked()?;
        self.extents_checked()?;
        self.least_checked()?;
        Ok(PassedJob { job: self })
    }

    // The job, if it passes its checks.
    pub fn checked(self) -> Result<PassedJob<'a>, Refusal>
        ensures { told_by passed_job result ≡ job_answer (asked self.entry) }
    {
        self.sizes_checked()?;
        self.lists_checked()
    }
}

impl<'a> PassedJob<'a> {
    // The least thicknesses: those given, or ones where none is given.
    pub fn thicknesses(self) -> [u32; 5]
        ensures { result ≡ five (passed_job self.entry).least }
    {
        if self.job.least.is_empty() {
            let ones: [u32; 5] = [1; 5];
            return padded(&ones[..self.job.d]);
        }
        padded(self.job.least)
    }

    // The most slabs of each dimension: its extent divided by its least thickness, rounded down. Where none is given, the extents are the most slabs.
    fn most_slabs(self) -> [u32; 5]
        ensures { result ≡ five (most_of (passed_job self.entry).extents (passed_job self.entry).least) }
    {
        let mut most = padded(self.job.extents);
        if self.job.least.is_empty() {
            return most;
        }
        // Each by its place: of what a loop over `iter_mut().zip(..)` writes, a proof knows the length alone.
        for (k, least) in self.job.least.iter().enumerate() {
            most[k] /= *least;
        }
        most
    }

    // The cuts chosen.
    pub fn cuts_of(self) -> Option<Found>
        ensures { result ≡ found_of self.entry.job.weights.now (cheapest_for (passed_job self.entry)) }
    {
        let most = self.most_slabs();
        cheapest_cuts(self.job.p, &most[..self.job.d], self.job.weights)
    }

    // The plan with the cuts chosen.
    fn plan(self) -> Result<Plan, Refusal>
        ensures { told result ≡ planned_answer (plan_with (passed_job self.entry) (cheapest_for (passed_job self.entry))) }
    {
        let Found { cost, cuts } = self.cuts_of().ok_or(Refusal::NoCuts)?;
        let job = self.job;
        let moduli = moduli_of(job.p, &cuts[..job.d]);
        let matrix = matrix_of(job.p, &cuts[..job.d], &moduli);
        Ok(Plan {
            d: job.d,
            p: job.p,
            extents: padded(job.extents),
            weights: padded(job.weights),
            cuts,
            cost,
            moduli,
            matrix,
            kind: 0,
            least: self.thicknesses(),
        })
    }
}

// The planner's answer to a job.
pub fn plan_job(job: Job) -> Result<Plan, Refusal>
    ensures { told result ≡ planned_answer (plan_answer (asked job.entry)) }
{
    let passed = job.checked()?;
    passed.plan()
}
