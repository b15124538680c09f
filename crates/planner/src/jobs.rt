// A job that has passed its checks, as a value that carries what they leave.
ghost use Rattle.planner.specs.Asked.{Measured, asked};

use crate::Job;

// A job that passes the lines 1 to 3 of the table and 13: the cuts are chosen for such a one.
#[derive(Clone, Copy)]
pub struct PassedJob<'a> {
    pub job: Job<'a>,
    ghost measured: { Measured (asked job) },
}
