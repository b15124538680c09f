// The lines of a slab, as a value that carries what keeps their sums within 32 bits.
ghost use Rattle.std.specs.Prelude.{true};
ghost use Rattle.walks.specs.Walks.{Strides};
ghost use Rattle.timetable.specs.Rows.{SlabAsked};

use crate::slab_faces::Tally;
use layout::{Axis, ShapedPlan};
use walks::Stride;

// The lines of slab v along place k. They lie along `line`, a dimension of the grid with one slab along k and along the rows; `flat` has one slab along
// the lines too. The stride leads one tile up the line, and the table has what a row has, by the owner of its first tile.
#[derive(Clone, Copy)]
pub struct Lines<'a> {
    pub line: Axis,
    pub flat: ShapedPlan,
    pub k: usize,
    pub v: u32,
    pub up: Stride,
    pub table: &'a [Tally],
    ghost strides: { Strides line.shaped.plan line.k true up },
    ghost asked: { SlabAsked line.shaped.plan flat.plan line.k k v table.now },
}
