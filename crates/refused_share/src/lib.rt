// The smallest share of the machine that is refused too: of a job refused with 5, the smallest divisor of p for which the same job is refused with 5.
#![tactic(auto)]

ghost use Rattle.std.specs.Prelude.{◌≡◌};
ghost use Rattle.multipartition.specs.Answers.{refused};
ghost use Rattle.multipartition.specs.Jobs.{Passed, plan_answer};
ghost use Rattle.refusals.specs.Told.{told_by, maybe};
ghost use Rattle.planner.specs.Asked.{asked};
ghost use Rattle.planner.specs.Planned.{passed_job};
ghost use Rattle.refused_share.specs.Shares.{is_five, smallest_refused, share_answer};

use numbers::factors::divisors;
use planner::{Job, PassedJob};
use refusals::Refusal;

// Whether a job that passes the planner's checks is refused with 5: no plan is made.
fn is_five(passed: PassedJob) -> bool
    requires { Passed (passed_job passed) }
    ensures { result ≡ is_five (plan_answer (passed_job passed.entry)) }
{
    passed.cuts_of().is_none()
}

// The smallest divisor of p for which a job is refused with 5, where it is so for p itself, the last divisor.
fn smallest(passed: PassedJob) -> u32
    requires { plan_answer (passed_job passed) ≡ refused 5 0 }
    ensures { result ≡ smallest_refused (passed_job passed.entry) }
{
    let job = passed.job;
    let found = divisors(job.p);
    let places = found.as_slice();
    for x in &places[..places.len() - 1] {
        let share = PassedJob {
            job: Job { p: *x, ..job },
        };
        if is_five(share) {
            return *x;
        }
    }
    job.p
}

// The smallest divisor of p for which the same job is refused with 5, for a job that is refused so; nothing to show for an accepted one.
pub fn smallest_refused(job: Job) -> Result<Option<u32>, Refusal>
    ensures { told_by maybe result ≡ share_answer (asked job.entry) }
{
    let passed = job.checked()?;
    if !is_five(passed) {
        return Ok(None);
    }
    let x = smallest(passed);
    Ok(Some(x))
}
