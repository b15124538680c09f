// The link for a solver in C: the proved calls over plain numbers and lists of 32-bit numbers, or of bytes for a slab sheet. Each call returns 0, or a refusal's number with its
// place in the upper 32 bits.
#![tactic(auto)]

ghost use Rattle.std.specs.Prelude.{◌≡◌, length};
ghost use Rattle.multipartition.specs.Plans.{job_with};
ghost use Rattle.planner.specs.Asked.{asked};
ghost use Rattle.link_lists.specs.Lists.{Linked};
ghost use Rattle.solver_link.specs.Link.{plan_link, smallest_refused_link, diagonal_link, hypercube_owner_link, owner_link, neighbour_link, slab_link, slab_of_link, slabs_of_link, slab_sheet_link, tile_number_link, tile_position_link, step_link, timetable_link, chains_link};

use link_lists::code;
use planner::Job;

mod calls; // calls.rt: the calls with their refusals

// A job by its numbers and lists.
fn job<'a>(
    processors: u32,
    dimensions: u32,
    extents: &'a [u32],
    weights: &'a [u32],
    least: &'a [u32],
) -> Job<'a>
    ensures { asked result ≡ job_with processors dimensions extents.now weights.now least.now }
{
    Job {
        p: processors,
        d: dimensions as usize,
        extents,
        weights,
        least,
    }
}

// Plans a job: the answer list gets the plan list. An empty list of least thicknesses stands for 1 in every dimension.
#[unsafe(no_mangle)]
pub extern "C" fn multipartition_plan(
    processors: u32,
    dimensions: u32,
    extents: &[u32],
    weights: &[u32],
    least: &[u32],
    plan: &mut [u32],
) -> u64
    ensures { Linked (plan_link processors dimensions extents.now weights.now least.now (length plan.old)) plan.old result plan.new }
{
    code(calls::plan(job(processors, dimensions, extents, weights, least), plan))
}

// The smallest divisor of the processor count for which the same job is refused with 5, of a job refused with 5: the answer list gets 1 and the
// divisor, or 0 and 0 for nothing to show.
#[unsafe(no_mangle)]
pub extern "C" fn multipartition_smallest_refused(
    processors: u32,
    dimensions: u32,
    extents: &[u32],
    weights: &[u32],
    least: &[u32],
    answer: &mut [u32],
) -> u64
    ensures { Linked (smallest_refused_link processors dimensions extents.now weights.now least.now (length answer.old)) answer.old result answer.new }
{
    code(calls::smallest_refused(job(processors, dimensions, extents, weights, least), answer))
}

// Plans a job with the diagonal layout, likewise.
#[unsafe(no_mangle)]
pub extern "C" fn multipartition_diagonal(
    processors: u32,
    dimensions: u32,
    extents: &[u32],
    weights: &[u32],
    least: &[u32],
    plan: &mut [u32],
) -> u64
    ensures { Linked (diagonal_link processors dimensions extents.now weights.now least.now (length plan.old)) plan.old result plan.new }
{
    code(calls::diagonal(job(processors, dimensions, extents, weights, least), plan))
}

// Who owns a position of the hypercube layout: the answer list gets the processor.
#[unsafe(no_mangle)]
pub extern "C" fn multipartition_hypercube_owner(
    processors: u32,
    position: &[u32],
    answer: &mut [u32],
) -> u64
    ensures { Linked (hypercube_owner_link processors position.now (length answer.old)) answer.old result answer.new }
{
    code(calls::hypercube_owner(processors, position, answer))
}

// Who owns a position: the answer list gets the processor.
#[unsafe(no_mangle)]
pub extern "C" fn multipartition_owner(plan: &[u32], position: &[u32], answer: &mut [u32]) -> u64
    ensures { Linked (owner_link plan.now position.now (length answer.old)) answer.old result answer.new }
{
    code(calls::owner(plan, position, answer))
}

// Who is the neighbour of a processor along a dimension, up unless `up` is 0: the answer list gets 1 and the processor, or 0 and 0 for nobody.
#[unsafe(no_mangle)]
pub extern "C" fn multipartition_neighbour(
    plan: &[u32],
    processor: u32,
    dimension: u32,
    up: u32,
    answer: &mut [u32],
) -> u64
    ensures { Linked (neighbour_link plan.now processor dimension up (length answer.old)) answer.old result answer.new }
{
    code(calls::neighbour(plan, processor, dimension, up, answer))
}

// Which elements a slab holds: the answer list gets the first and the one after the last.
#[unsafe(no_mangle)]
pub extern "C" fn multipartition_slab(
    plan: &[u32],
    dimension: u32,
    slab: u32,
    answer: &mut [u32],
) -> u64
    ensures { Linked (slab_link plan.now dimension slab (length answer.old)) answer.old result answer.new }
{
    code(calls::slab(plan, dimension, slab, answer))
}

// Which slab holds an element: the answer list gets the slab.
#[unsafe(no_mangle)]
pub extern "C" fn multipartition_slab_of(
    plan: &[u32],
    dimension: u32,
    element: u32,
    answer: &mut [u32],
) -> u64
    ensures { Linked (slab_of_link plan.now dimension element (length answer.old)) answer.old result answer.new }
{
    code(calls::slab_of(plan, dimension, element, answer))
}

// Which slabs hold the elements of a rising list: they go to the front of the second list.
#[unsafe(no_mangle)]
pub extern "C" fn multipartition_slabs_of(
    plan: &[u32],
    dimension: u32,
    elements: &[u32],
    slabs: &mut [u32],
) -> u64
    ensures { Linked (slabs_of_link plan.now dimension elements.now slabs.old) slabs.old result slabs.new }
{
    code(calls::slabs_of(plan, dimension, elements, slabs))
}

// A page of a slab sheet: the list of bytes gets it.
#[unsafe(no_mangle)]
pub extern "C" fn multipartition_slab_sheet(
    plan: &[u32],
    dimension: u32,
    page: u32,
    caption: &[u8],
    sheet: &mut [u8],
) -> u64
    ensures { Linked (slab_sheet_link plan.now dimension page caption.now (length sheet.old)) sheet.old result sheet.new }
{
    code(calls::slab_sheet(plan, dimension, page, caption, sheet))
}

// The number of the tile at a position: the answer list gets the number.
#[unsafe(no_mangle)]
pub extern "C" fn multipartition_tile_number(
    plan: &[u32],
    position: &[u32],
    answer: &mut [u32],
) -> u64
    ensures { Linked (tile_number_link plan.now position.now (length answer.old)) answer.old result answer.new }
{
    code(calls::tile_number(plan, position, answer))
}

// The position of a tile: the answer list gets the coordinates.
#[unsafe(no_mangle)]
pub extern "C" fn multipartition_tile_position(plan: &[u32], tile: u32, answer: &mut [u32]) -> u64
    ensures { Linked (tile_position_link plan.now tile (length answer.old)) answer.old result answer.new }
{
    code(calls::tile_position(plan, tile, answer))
}

// The position one step on along a dimension, up unless `up` is 0: the answer list gets 1 and the coordinates, or zeros for the edge.
#[unsafe(no_mangle)]
pub extern "C" fn multipartition_step(
    plan: &[u32],
    position: &[u32],
    dimension: u32,
    up: u32,
    answer: &mut [u32],
) -> u64
    ensures { Linked (step_link plan.now position.now dimension up (length answer.old)) answer.old result answer.new }
{
    code(calls::step(plan, position, dimension, up, answer))
}

// What a processor does at a step of the sweep along a dimension, up unless `up` is 0: the answer list gets the slab visited, how many tiles it works
// on, and for what it sends afterwards and what it expects beforehand 1, the processor and the length, or three zeros for nobody.
#[unsafe(no_mangle)]
pub extern "C" fn multipartition_timetable(
    plan: &[u32],
    dimension: u32,
    up: u32,
    step: u32,
    processor: u32,
    answer: &mut [u32],
) -> u64
    ensures { Linked (timetable_link plan.now dimension up step processor (length answer.old)) answer.old result answer.new }
{
    code(calls::timetable(plan, dimension, up, step, processor, answer))
}

// Which tiles each processor owns: the first list gets each processor's lowest tile, the second, for each tile, its owner's next higher one.
#[unsafe(no_mangle)]
pub extern "C" fn multipartition_chains(plan: &[u32], heads: &mut [u32], nexts: &mut [u32]) -> u64
    ensures { Linked (chains_link plan.now (length heads.old) (length nexts.old)) (heads.old, nexts.old) result (heads.new, nexts.new) }
{
    code(calls::chains(plan, heads, nexts))
}
