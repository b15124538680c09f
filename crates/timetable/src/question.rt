// A question of the timetable that passes the checks, as a value that carries what it passed.
ghost use Rattle.std.specs.Prelude.{◌+◌, ◌≤◌, ◌<◌, get_or};
ghost use Rattle.layout.specs.Plans.{layout_of};
ghost use Rattle.timetable.specs.Timetable.{other_extents};

use layout::Axis;

// Which slab a processor visits at a step of the sweep along a dimension, up or down.
#[derive(Clone, Copy)]
pub struct Question {
    pub axis: Axis,
    pub up: bool,
    pub step: u32,
    pub processor: u32,
    ghost extents_fit: { other_extents (layout_of axis.shaped.plan) (axis.k + 1) ≤ 4294967295 },
    ghost step_below: { step < get_or axis.shaped.plan.cuts axis.k 0 },
    ghost processor_below: { processor < axis.shaped.plan.p },
}
