// The slabs of a whole probe line: of a rising list of elements of one dimension, written in one pass along the elements and the slab edges
// (document 02, request h).
#![tactic(auto)]

ghost use Rattle.std.specs.Prelude.{◌≡◌, ◌+◌, ◌<◌, ◌≤◌, eqb, length};
ghost use Rattle.multipartition.specs.Slabs.{slab_start, slab_of};
ghost use Rattle.layout.specs.Plans.{layout_of};
ghost use Rattle.refusals.specs.Told.{Answers};
ghost use Rattle.probes.specs.Probes.{all_within, first_fall, fall_in, slabs_into, probes_answer};
ghost use Rattle.probes.specs.Edges.{RisingWithin};

use crate::edge::Edge;
use layout::Plan;
use refusals::Refusal;
use tiles::slabs::Slabs;

mod edge; // edge.rt: the edge behind a slab

// Whether every element is one of n. It goes on to the end also where one is not: `all` leaves early, and took five to ten times as long.
fn all_within(elements: &[u32], n: u32) -> bool
    ensures { result ≡ all_within n elements.now }
{
    let mut ok = true;
    for element in elements {
        ok &= *element < n;
    }
    ok
}

// Whether no element is smaller than the one before. It goes on to the end likewise: `is_sorted` leaves early, and took ten times as long.
fn rises(elements: &[u32]) -> bool
    ensures { result ≡ eqb (first_fall elements.now) 0 }
{
    let mut ok = true;
    for pair in elements.windows(2) {
        ok &= pair[0] <= pair[1];
    }
    ok
}

// The place of the first element that is smaller than the one before, counted from 1. It is looked for only where there is one.
fn first_fall(elements: &[u32]) -> Option<usize>
    ensures { result ≡ fall_in elements.now }
{
    if rises(elements) {
        return None;
    }
    let before = elements
        .iter()
        .zip(elements.iter().skip(1))
        .position(|(before, element)| element < before)?;
    Some(before + 2)
}

impl Edge {
    // The edge behind slab 0.
    fn first(slabs: Slabs) -> Edge
        ensures { (result.slabs ≡ slabs) × (result.slab ≡ 0) }
    {
        Edge {
            slabs,
            slab: 0,
            after: slabs.thickness(0),
        }
    }

    // The edge behind the next slab.
    fn next(self) -> Edge
        requires { self.slab + 1 < self.slabs.cut }
        ensures { (result.slabs ≡ self.slabs) × (result.slab ≡ self.slab + 1) }
    {
        let slab = self.slab + 1;
        Edge {
            slabs: self.slabs,
            slab,
            after: self.after + self.slabs.thickness(slab),
        }
    }

    // On to the edge behind the slab of an element.
    fn past(self, element: u32) -> Edge
        requires { (slab_start self.slabs.extent self.slabs.cut self.slab ≤ element) × (element < self.slabs.extent) }
        ensures { (result.slabs ≡ self.slabs) × (result.slab ≡ slab_of self.slabs.extent self.slabs.cut element) }
    {
        let mut edge = self;
        while edge.after <= element {
            edge = edge.next();
        }
        edge
    }
}

// Writes the slab of each element: one pass, in which the edge moves on and never back.
fn fill(along: Slabs, elements: &[u32], slabs: &mut [u32])
    requires { (RisingWithin along.extent elements.now) × (length elements.now ≤ length slabs.old) }
    ensures { slabs.new ≡ slabs_into along.extent along.cut elements.now slabs.old }
{
    let mut edge = Edge::first(along);
    // By place: of a list that is written through `iter_mut().zip(..)` a proof knows only the length.
    for (i, element) in elements.iter().enumerate() {
        edge = edge.past(*element);
        slabs[i] = edge.slab;
    }
}

// The slab of each element of a rising list, at the front of a second list. All checks come before the first write.
pub fn slabs_of(
    plan: Plan,
    dimension: usize,
    elements: &[u32],
    slabs: &mut [u32],
) -> Result<(), Refusal>
    ensures { Answers (probes_answer (layout_of plan) dimension elements.now slabs.old) result slabs.old slabs.new }
{
    let along = Slabs::of(&plan, dimension)?;
    if !all_within(elements, along.extent) {
        return Err(Refusal::Range);
    }
    if slabs.len() < elements.len() {
        return Err(Refusal::Room);
    }
    if let Some(place) = first_fall(elements) {
        return Err(Refusal::Falls(place));
    }
    fill(along, elements, slabs);
    Ok(())
}
