// The sweep timetable: which slab a processor visits at a step of a sweep, how many tiles it works on, whom it sends to afterwards and whom it
// receives from beforehand. It rests on what the questions and the slabs promise.
#![tactic(auto)]

mod extents; // extents.rt: whether the product of the other extents fits 32 bits
mod question; // question.rt: a question that passes the checks
mod slab_lines; // slab_lines.rt: the lines of a slab
mod slab_faces; // slab_faces.rt: a processor's tiles in a slab, and their faces

ghost use Rattle.std.specs.Prelude.{not, cond, ◌≡◌, suc, ◌+◌, ◌<◌, eqb, get_or};
ghost use Rattle.std.proofs.Math.Option.{none, some};
ghost use Rattle.multipartition.specs.Questions.{cut_of};
ghost use Rattle.refusals.specs.Told.{told_by};
ghost use Rattle.layout.specs.Plans.{layout_of};
ghost use Rattle.timetable.specs.Timetable.{neighbour_by, slab_visited, message_with, visit_of, timetable_answer};
ghost use Rattle.timetable.specs.Told.{told_message, told_visit};

use crate::question::Question;
use layout::Plan;
use refusals::Refusal;

// Whom a message goes to or comes from, and how many elements it has.
#[derive(Clone, Copy, Debug, PartialEq, Eq)]
pub struct Message {
    pub processor: u32,
    pub length: u32,
}

// What a processor does at a step: the slab that it visits, how many tiles it works on, and the messages afterwards and beforehand.
#[derive(Clone, Copy, Debug, PartialEq, Eq)]
pub struct Visit {
    pub slab: u32,
    pub tiles: u32,
    pub sends: Option<Message>,
    pub expects: Option<Message>,
}

impl Question {
    // The slab that the step visits.
    fn slab(self) -> u32
        ensures { (result ≡ slab_visited (get_or self.axis.shaped.plan.cuts self.axis.k 0) self.up self.step) × (result < get_or self.axis.shaped.plan.cuts self.axis.k 0) }
    {
        if self.up {
            self.step
        } else {
            self.axis.cut() - 1 - self.step
        }
    }

    // A message of this length to or from the processor's neighbour, up or down.
    fn message(self, up: bool, length: u32) -> Message
        requires { 1 < get_or self.axis.shaped.plan.cuts self.axis.k 0 }
        ensures { told_message (Some result) ≡ message_with (neighbour_by (layout_of self.axis.shaped.plan) (self.axis.k + 1) up self.processor) length }
    {
        let owners = questions::owners(&self.axis.shaped);
        let neighbour = owners.neighbour(self.axis.k, up, self.processor);
        Message {
            processor: neighbour,
            length,
        }
    }

    // What is sent after the step: nothing after the last.
    fn sends(self, length: u32) -> Option<Message>
        ensures { told_message result ≡ cond (eqb (suc self.step) (cut_of (layout_of self.axis.shaped.plan) (self.axis.k + 1))) none (message_with (neighbour_by (layout_of self.axis.shaped.plan) (self.axis.k + 1) self.up self.processor) length) }
    {
        if self.step + 1 == self.axis.cut() {
            return None;
        }
        Some(self.message(self.up, length))
    }

    // What is expected before the step: nothing before step 0.
    fn expects(self, length: u32) -> Option<Message>
        ensures { told_message result ≡ cond (eqb self.step 0) none (message_with (neighbour_by (layout_of self.axis.shaped.plan) (self.axis.k + 1) (not self.up) self.processor) length) }
    {
        if self.step == 0 {
            return None;
        }
        Some(self.message(!self.up, length))
    }

    // The visit. What is sent afterwards and what is expected beforehand are both the processor's own faces in the slab visited.
    fn visit(self) -> Visit
        ensures { told_visit result ≡ visit_of (layout_of self.axis.shaped.plan) (self.axis.k + 1) self.up self.step self.processor }
    {
        let slab = self.slab();
        let tally = slab_faces::tally_in(self.axis, slab, self.processor);
        let length = tally.elements;
        Visit {
            slab,
            tiles: tally.tiles,
            sends: self.sends(length),
            expects: self.expects(length),
        }
    }
}

// A processor's visit at a step of the sweep along a dimension, counted from 1, up or down.
pub fn visit_at(
    plan: Plan,
    dimension: usize,
    up: bool,
    step: u32,
    processor: u32,
) -> Result<Visit, Refusal>
    ensures { told_by told_visit result ≡ timetable_answer (layout_of plan) dimension up step processor }
{
    let axis = plan.along(dimension)?;
    if !extents::others_fit(axis) {
        return Err(Refusal::Sweep);
    }
    if axis.cut() <= step {
        return Err(Refusal::Range);
    }
    if axis.shaped.plan.p <= processor {
        return Err(Refusal::Range);
    }
    let question = Question {
        axis,
        up,
        step,
        processor,
    };
    Ok(question.visit())
}
