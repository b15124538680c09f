// The lists of the link for a solver in C: plans and answers as lists of 32-bit numbers.
#![tactic(auto)]

ghost use Rattle.std.specs.Prelude.{◌≡◌, ◌+◌, ◌*◌, ◌≤◌, length, take, drop};
ghost use Rattle.std.proofs.lemmas.List.Edits.{sets};
ghost use Rattle.refusals.specs.Told.{told, told_by, Answers};
ghost use Rattle.layout.specs.Lent.{Lends};
ghost use Rattle.tiles.specs.Positions.{position_with};
ghost use Rattle.timetable.specs.Told.{told_message, told_visit};
ghost use Rattle.link_lists.specs.Lists.{plan_in, list_of_plan, plan_list_answer, into, code_of, place_in32, message_numbers, visit_numbers};

use layout::{Plan, PlanLists};
use refusals::Refusal;
use std::array;
use tiles::positions::Position;
use timetable::{Message, Visit};

// Where the parts of a plan list start, and how many places the list has.
const DIMENSIONS: usize = 0;

const PROCESSORS: usize = 1;

const EXTENTS: usize = 2;

const WEIGHTS: usize = 7;

const CUTS: usize = 12;

const COST_LOW: usize = 17;

const COST_HIGH: usize = 18;

const MODULI: usize = 19;

const MATRIX: usize = 24;

const KIND: usize = 49;

const LEAST: usize = 50;

pub const PLAN_LENGTH: usize = 55;

// The numbers of a plan list, if the list has its length.
pub fn plan_list(list: &[u32]) -> Result<&[u32; PLAN_LENGTH], Refusal>
    ensures { told_by (λ numbers. numbers.now) result ≡ plan_list_answer list.now }
{
    list.try_into().map_err(|_| Refusal::Shape)
}

// N numbers of a plan list, from place `at` on.
fn part<const N: usize>(list: &[u32; PLAN_LENGTH], at: usize) -> [u32; N]
    requires { at + N ≤ 55 }
    ensures { result ≡ take N (drop at list.now) }
{
    *list[at..].first_chunk().unwrap()
}

// Two numbers as one, the lower 32 bits first: a cost, or a refusal's number and its place.
pub fn joined(low: u32, high: u32) -> u64
    ensures { result ≡ low + 4294967296 * high }
{
    u64::from(low) + 4294967296 * u64::from(high)
}

// The plan of a list.
#[tactic(auto, unfolding(crate::specs::Lists::plan_in))]
pub fn plan_in(list: &[u32; PLAN_LENGTH]) -> Plan
    ensures { result ≡ plan_in list.now }
{
    Plan {
        d: list[DIMENSIONS] as usize,
        p: list[PROCESSORS],
        extents: part(list, EXTENTS),
        weights: part(list, WEIGHTS),
        cuts: part(list, CUTS),
        cost: joined(list[COST_LOW], list[COST_HIGH]),
        moduli: part(list, MODULI),
        matrix: part(list, MATRIX),
        kind: list[KIND],
        least: part(list, LEAST),
    }
}

// The lists of the plan of a list, of which nothing is copied.
#[tactic(auto, unfolding(crate::specs::Lists::plan_in))]
pub fn lists_in(list: &[u32; PLAN_LENGTH]) -> PlanLists<'_>
    ensures { Lends (plan_in list.now) result }
{
    PlanLists {
        d: list[DIMENSIONS] as usize,
        p: list[PROCESSORS],
        kind: list[KIND],
        extents: &list[EXTENTS..WEIGHTS],
        cuts: &list[CUTS..COST_LOW],
        moduli: &list[MODULI..MATRIX],
        matrix: &list[MATRIX..KIND],
        least: &list[LEAST..],
    }
}

// Numbers into a list, from place `at` on.
fn put_part(list: &mut [u32], at: usize, part: &[u32])
    requires { at + length part.now ≤ length list.old }
    ensures { (list.new ≡ sets list.old at part.now) × (length list.new ≡ length list.old) }
{
    list[at..at + part.len()].copy_from_slice(part);
}

// The list of a plan. A planned d fits 32 bits.
pub fn list_of(plan: Plan) -> [u32; PLAN_LENGTH]
    requires { plan.d ≤ 5 }
    ensures { result ≡ list_of_plan plan }
{
    let low = (plan.cost % 4294967296) as u32;
    let high = (plan.cost / 4294967296) as u32;
    let mut list = [0; PLAN_LENGTH];
    put_part(&mut list, DIMENSIONS, &[plan.d as u32, plan.p]);
    put_part(&mut list, EXTENTS, &plan.extents);
    put_part(&mut list, WEIGHTS, &plan.weights);
    put_part(&mut list, CUTS, &plan.cuts);
    put_part(&mut list, COST_LOW, &[low, high]);
    put_part(&mut list, MODULI, &plan.moduli);
    put_part(&mut list, MATRIX, &plan.matrix);
    put_part(&mut list, KIND, &[plan.kind]);
    put_part(&mut list, LEAST, &plan.least);
    list
}

// Numbers into an answer list of as many places: refusal 9 is for another length.
pub fn put(answer: &mut [u32], numbers: &[u32]) -> Result<(), Refusal>
    ensures { Answers (into (length answer.old) numbers.now) result answer.old answer.new }
{
    if answer.len() != numbers.len() {
        return Err(Refusal::Room);
    }
    answer.copy_from_slice(numbers);
    Ok(())
}

// The position of a list of coordinates. Those past the fifth are not kept: with so many, it lies in no grid.
pub fn position_in(list: &[u32]) -> Position
    ensures { result ≡ position_with list.now }
{
    Position {
        d: list.len(),
        at: array::from_fn(|k| list.get(k).copied().unwrap_or(0)),
    }
}

// 1, the processor and the length of a message, or zeros for none.
fn message_numbers(message: Option<Message>) -> [u32; 3]
    ensures { result ≡ message_numbers (told_message message) }
{
    match message {
        Some(message) => [1, message.processor, message.length],
        None => [0; 3],
    }
}

// A visit: the slab, how many tiles, what is sent afterwards, what is expected beforehand.
pub fn visit_numbers(visit: Visit) -> [u32; 8]
    ensures { result ≡ visit_numbers (told_visit visit) }
{
    let [sent, to, sent_length] = message_numbers(visit.sends);
    let [expected, from, expected_length] = message_numbers(visit.expects);
    [
        visit.slab,
        visit.tiles,
        sent,
        to,
        sent_length,
        expected,
        from,
        expected_length,
    ]
}

// What a call returns: 0, or the refusal's number with its place in the upper 32 bits. A larger place is given as the largest.
pub fn code(answered: Result<(), Refusal>) -> u64
    ensures { result ≡ code_of (place_in32 (told answered)) }
{
    match answered {
        Ok(()) => 0,
        Err(refusal) => {
            let place = refusal.place().min(4294967295) as u32;
            joined(refusal.number(), place)
        }
    }
}
