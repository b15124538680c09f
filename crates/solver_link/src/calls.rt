// The calls of the link: each turns back with a refusal, or fills the lists that it is lent. A plan list of another length than a plan list's is a 6.
ghost use Rattle.std.specs.Prelude.{◌≡◌, ◌∷◌, length};
ghost use Rattle.multipartition.specs.Jobs.{plan_answer};
ghost use Rattle.refusals.specs.Told.{maybe, Answers};
ghost use Rattle.planner.specs.Asked.{asked};
ghost use Rattle.refused_share.specs.Shares.{share_answer};
ghost use Rattle.diagonal.specs.Diagonal.{diagonal_answer};
ghost use Rattle.solver_link.specs.Link.{plan_listed, found_listed, found_numbers, step_places, hypercube_owner_link, owner_link, neighbour_link, slab_link, slab_of_link, probes_listed, slab_sheet_link, tile_number_link, tile_position_link, step_link, timetable_link, chains_link};

use link_lists::{list_of, lists_in, plan_in, plan_list, position_in, put, visit_numbers};
use planner::Job;
use refusals::Refusal;
use tiles::positions::Position;
use tiles::{positions, slabs};

// 1 and what was found, or 0 and 0 for none.
fn found_numbers(found: Option<u32>) -> [u32; 2]
    ensures { result ≡ found_numbers (maybe found) }
{
    match found {
        Some(x) => [1, x],
        None => [0, 0],
    }
}

// 1 and the five places of a position one step on, or zeros for the edge.
fn step_places(next: Option<Position>) -> [u32; 6]
    ensures { result ≡ step_places next }
{
    match next {
        Some(next) => {
            let [i1, i2, i3, i4, i5] = next.at;
            [1, i1, i2, i3, i4, i5]
        }
        None => [0; 6],
    }
}

// Plans a job: the answer list gets the plan list.
pub fn plan(job: Job, answer: &mut [u32]) -> Result<(), Refusal>
    ensures { Answers (plan_listed (length answer.old) (plan_answer (asked job.entry))) result answer.old answer.new }
{
    let plan = planner::plan_job(job)?;
    put(answer, &list_of(plan))
}

// Plans a job with the diagonal layout, likewise.
pub fn diagonal(job: Job, answer: &mut [u32]) -> Result<(), Refusal>
    ensures { Answers (plan_listed (length answer.old) (diagonal_answer (asked job.entry))) result answer.old answer.new }
{
    let plan = diagonal::diagonal_job(job)?;
    put(answer, &list_of(plan))
}

// The smallest divisor of the processor count for which the same job is refused with 5, of a job refused with 5.
pub fn smallest_refused(job: Job, answer: &mut [u32]) -> Result<(), Refusal>
    ensures { Answers (found_listed (length answer.old) (share_answer (asked job.entry))) result answer.old answer.new }
{
    let share = refused_share::smallest_refused(job)?;
    put(answer, &found_numbers(share))
}

// Who owns a position of the hypercube layout.
#[tactic(auto, unfolding(crate::specs::Link::hypercube_owner_link))]
pub fn hypercube_owner(processors: u32, position: &[u32], answer: &mut [u32]) -> Result<(), Refusal>
    ensures { Answers (hypercube_owner_link processors position.now (length answer.old)) result answer.old answer.new }
{
    let processor = hypercube::hypercube_owner(processors, position)?;
    put(answer, &[processor])
}

// Who owns a position.
#[tactic(auto, unfolding(crate::specs::Link::owner_link))]
pub fn owner(plan: &[u32], position: &[u32], answer: &mut [u32]) -> Result<(), Refusal>
    ensures { Answers (owner_link plan.now position.now (length answer.old)) result answer.old answer.new }
{
    let list = plan_list(plan)?;
    let owner = questions::owner_over(lists_in(list), position)?;
    put(answer, &[owner])
}

// Who is the neighbour of a processor along a dimension, up unless `up` is 0.
#[tactic(auto, unfolding(crate::specs::Link::neighbour_link))]
pub fn neighbour(
    plan: &[u32],
    processor: u32,
    dimension: u32,
    up: u32,
    answer: &mut [u32],
) -> Result<(), Refusal>
    ensures { Answers (neighbour_link plan.now processor dimension up (length answer.old)) result answer.old answer.new }
{
    let list = plan_list(plan)?;
    let found = questions::neighbour_answered(
        lists_in(list),
        processor,
        dimension as usize,
        up != 0,
    )?;
    put(answer, &found_numbers(found))
}

// Which elements a slab holds: the first and the one after the last.
#[tactic(auto, unfolding(crate::specs::Link::slab_link))]
pub fn slab(plan: &[u32], dimension: u32, slab: u32, answer: &mut [u32]) -> Result<(), Refusal>
    ensures { Answers (slab_link plan.now dimension slab (length answer.old)) result answer.old answer.new }
{
    let list = plan_list(plan)?;
    let elements = slabs::slab_elements(plan_in(list), dimension as usize, slab)?;
    put(answer, &[elements.start, elements.end])
}

// Which slab holds an element.
#[tactic(auto, unfolding(crate::specs::Link::slab_of_link))]
pub fn slab_of(
    plan: &[u32],
    dimension: u32,
    element: u32,
    answer: &mut [u32],
) -> Result<(), Refusal>
    ensures { Answers (slab_of_link plan.now dimension element (length answer.old)) result answer.old answer.new }
{
    let list = plan_list(plan)?;
    let slab = slabs::slab_of(plan_in(list), dimension as usize, element)?;
    put(answer, &[slab])
}

// Which slabs hold the elements of a rising list: they go to the front of the second list.
#[tactic(auto, unfolding(crate::specs::Link::probes_listed))]
pub fn slabs_of(
    plan: &[u32],
    dimension: u32,
    elements: &[u32],
    slabs: &mut [u32],
) -> Result<(), Refusal>
    ensures { Answers (probes_listed plan.now dimension elements.now slabs.old) result slabs.old slabs.new }
{
    let list = plan_list(plan)?;
    probes::slabs_of(plan_in(list), dimension as usize, elements, slabs)
}

// A page of a slab sheet: the list of bytes gets it.
#[tactic(auto, unfolding(crate::specs::Link::slab_sheet_link))]
pub fn slab_sheet(
    plan: &[u32],
    dimension: u32,
    page: u32,
    caption: &[u8],
    sheet: &mut [u8],
) -> Result<(), Refusal>
    ensures { Answers (slab_sheet_link plan.now dimension page caption.now (length sheet.old)) result sheet.old sheet.new }
{
    let list = plan_list(plan)?;
    sheet::slab_sheet(plan_in(list), dimension as usize, page, caption, sheet)
}

// The number of the tile at a position.
#[tactic(auto, unfolding(crate::specs::Link::tile_number_link))]
pub fn tile_number(plan: &[u32], position: &[u32], answer: &mut [u32]) -> Result<(), Refusal>
    ensures { Answers (tile_number_link plan.now position.now (length answer.old)) result answer.old answer.new }
{
    let list = plan_list(plan)?;
    let tile = position_in(position).number(plan_in(list))?;
    put(answer, &[tile])
}

// The position of a tile: its coordinates.
#[tactic(auto, unfolding(crate::specs::Link::tile_position_link))]
pub fn tile_position(plan: &[u32], tile: u32, answer: &mut [u32]) -> Result<(), Refusal>
    ensures { Answers (tile_position_link plan.now tile (length answer.old)) result answer.old answer.new }
{
    let list = plan_list(plan)?;
    let position = positions::position_of(plan_in(list), tile)?;
    let coordinates = &position.at[..position.d];
    put(answer, coordinates)
}

// The position one step on along a dimension, up unless `up` is 0: 1 and the coordinates, or as many zeros for the edge.
#[tactic(auto, unfolding(crate::specs::Link::step_link))]
pub fn step(
    plan: &[u32],
    position: &[u32],
    dimension: u32,
    up: u32,
    answer: &mut [u32],
) -> Result<(), Refusal>
    ensures { Answers (step_link plan.now position.now dimension up (length answer.old)) result answer.old answer.new }
{
    let list = plan_list(plan)?;
    let next = position_in(position).step(plan_in(list), dimension as usize, up != 0)?;
    let places = step_places(next);
    let numbers = &places[..=position.len()];
    put(answer, numbers)
}

// What a processor does at a step of the sweep along a dimension, up unless `up` is 0.
#[tactic(auto, unfolding(crate::specs::Link::timetable_link))]
pub fn timetable(
    plan: &[u32],
    dimension: u32,
    up: u32,
    step: u32,
    processor: u32,
    answer: &mut [u32],
) -> Result<(), Refusal>
    ensures { Answers (timetable_link plan.now dimension up step processor (length answer.old)) result answer.old answer.new }
{
    let list = plan_list(plan)?;
    let visit = timetable::visit_at(plan_in(list), dimension as usize, up != 0, step, processor)?;
    put(answer, &visit_numbers(visit))
}

// Which tiles each processor owns: the first list gets each processor's lowest tile, the second, for each tile, its owner's next higher one.
#[tactic(auto, unfolding(crate::specs::Link::chains_link))]
pub fn chains(plan: &[u32], heads: &mut [u32], nexts: &mut [u32]) -> Result<(), Refusal>
    ensures { Answers (chains_link plan.now (length heads.old) (length nexts.old)) result (heads.old, nexts.old) (heads.new, nexts.new) }
{
    let list = plan_list(plan)?;
    chains::chains(plan_in(list), heads, nexts)
}
