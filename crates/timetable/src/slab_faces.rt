// A processor's tiles in a slab, and the sum of their faces, without going through all tiles of the slab: a table along the widest other dimension
// has what a row of tiles has of the processor, for each owner of the row's first tile; then one look a row. The rows are walked in lines along the
// widest dimension that is left, from neighbour to neighbour.
ghost use Rattle.std.specs.Prelude.{◌≢◌, ◌≡◌, ◌+◌, ◌≤◌, ◌<◌, get_or, take};
ghost use Rattle.numbers.specs.Products.{product};
ghost use Rattle.multipartition.specs.Owners.{owner_at};
ghost use Rattle.layout.specs.Plans.{layout_of};
ghost use Rattle.questions.specs.Bounds.{Small};
ghost use Rattle.walks.specs.Walks.{IsProcessor};
ghost use Rattle.timetable.specs.Faces.{thicknesses};
ghost use Rattle.timetable.specs.Timetable.{other_extents};
ghost use Rattle.timetable.specs.Rows.{HasPlaces, BelowCuts, Shares, LineAsked, line_tally, tally_of_line, tally_of_lines, tally_held, no_tally, plus, thick, Fits, flattened};

use crate::slab_lines::Lines;
use layout::{Axis, ShapedPlan};
use tiles::slabs::Slabs;
use walks::{Coordinated, Stride};

// What a processor has of a slab, or of a part of it: how many tiles, and how many elements their faces have. Of a row of tiles the elements are those
// along the row.
#[derive(Clone, Copy, Default)]
pub struct Tally {
    pub elements: u32,
    pub tiles: u32,
}

impl Tally {
    // The two together.
    fn plus(self, other: Tally) -> Tally
        requires { Fits (plus self other) }
        ensures { result ≡ plus self other }
    {
        Tally {
            elements: self.elements + other.elements,
            tiles: self.tiles + other.tiles,
        }
    }

    // The same tiles, each this thick in dimensions more.
    fn thick(self, thickness: u32) -> Tally
        requires { Fits (thick thickness self) }
        ensures { result ≡ thick thickness self }
    {
        Tally {
            elements: thickness * self.elements,
            tiles: self.tiles,
        }
    }
}

// The position with number r in the grid, the first dimension fastest.
fn places(grid: &ShapedPlan, r: u32) -> [u32; 5]
    ensures { HasPlaces grid.now.plan r result }
{
    let mut at: [u32; 5] = [0; 5];
    let mut rest = r;
    // An index beside the item: it is the place that is written.
    for (i, cut) in grid.plan.cuts[..grid.plan.d].iter().enumerate() {
        at[i] = rest % *cut;
        rest /= *cut;
    }
    at
}

// The product of the thicknesses of the tile at a position.
fn volume(grid: &ShapedPlan, at: [u32; 5]) -> u32
    requires { (BelowCuts grid.now.plan at) × (product (take grid.now.plan.d grid.now.plan.extents) ≤ 4294967295) }
    ensures { result ≡ product (thicknesses (layout_of grid.now.plan).extents (layout_of grid.now.plan).cuts (take grid.now.plan.d at)) }
{
    let mut all: u32 = 1;
    for (i, slab) in at[..grid.plan.d].iter().enumerate() {
        let slabs = Slabs {
            extent: grid.plan.extents[i],
            cut: grid.plan.cuts[i],
        };
        all *= slabs.thickness(*slab);
    }
    all
}

// The owner of a position.
fn owner(grid: &ShapedPlan, at: [u32; 5]) -> u32
    requires { Small grid.now.plan.d at }
    ensures { (result ≡ owner_at (layout_of grid.now.plan).moduli (layout_of grid.now.plan).matrix (take grid.now.plan.d at)) × (result < grid.now.plan.p) }
{
    let owners = questions::owners(grid);
    owners.owner(&at[..grid.plan.d])
}

// The dimension other than place k with the most slabs: the longest rows are the fewest. Any other would do.
fn widest(shaped: ShapedPlan, k: usize) -> Axis
    ensures { (result.shaped.plan ≡ shaped.plan) × (result.k ≢ k) }
{
    let mut j = if k == 0 { 1 } else { 0 };
    // An index beside the item: the dimension is the answer.
    for (i, cut) in shaped.plan.cuts[..shaped.plan.d].iter().enumerate() {
        if i != k && shaped.plan.cuts[j] < *cut {
            j = i;
        }
    }
    Axis { shaped, k: j }
}

// What a row has of processor q, for each owner of the row's first tile. Going down from q, the owners are those whose rows have q one slab further
// each time.
fn fill_shares(row: Axis, q: u32, table: &mut [Tally])
    requires { (q < row.shaped.plan.p) × (Shares row.shaped.plan row.k q 0 table.old) }
    ensures { Shares row.shaped.plan row.k q (get_or row.shaped.plan.cuts row.k 0) table.new }
{
    let slabs = Slabs::along(row);
    let down = walks::stride_along(row, false);
    let mut at = walks::with_coordinates(row.shaped, q);
    // The number of a slab: no list of slabs is read.
    for t in 0..slabs.cut {
        let share = Tally {
            elements: slabs.thickness(t),
            tiles: 1,
        };
        let o = at.number as usize;
        let before = table[o];
        table[o] = before.plus(share);
        at = walks::next(down, at);
    }
}

// The plan with one element in one slab along the axis.
fn flatten(axis: &Axis) -> ShapedPlan
    ensures { result.plan ≡ flattened axis.now.k axis.now.shaped.plan }
{
    let mut plan = axis.shaped.plan;
    plan.extents[axis.k] = 1;
    plan.cuts[axis.k] = 1;
    plan.least[axis.k] = 1;
    ShapedPlan { plan }
}

impl<'a> Lines<'a> {
    // A line, from the owner of its first tile on.
    fn along(&self, from: Coordinated) -> Tally
        requires { (IsProcessor self.now.line.shaped.plan from.number from) × (LineAsked self.now.line.shaped.plan self.now.line.k self.now.table.now from.number) }
        ensures { result ≡ line_tally self.now.line.shaped.plan self.now.line.k self.now.table.now (get_or self.now.line.shaped.plan.cuts self.now.line.k 0) from.number }
    {
        let slabs = Slabs::along(self.line);
        let mut at = from;
        let mut tally = Tally::default();
        // The number of a slab: no list of slabs is read.
        for t in 0..slabs.cut {
            let row = self.table[at.number as usize];
            tally = tally.plus(row.thick(slabs.thickness(t)));
            at = walks::next(self.up, at);
        }
        tally
    }

    // Line r.
    fn line(&self, r: u32) -> Tally
        requires { r < product (layout_of self.now.flat.plan).cuts }
        ensures { result ≡ tally_of_line self.now.line.shaped.plan self.now.flat.plan self.now.line.k self.now.k self.now.v self.now.table.now r }
    {
        let mut at = places(&self.flat, r);
        let shared = volume(&self.flat, at);
        at[self.k] = self.v;
        let first = owner(&self.line.shaped, at);
        let from = walks::with_coordinates(self.line.shaped, first);
        self.along(from).thick(shared)
    }

    // All lines.
    fn all(&self) -> Tally
        ensures { result ≡ tally_of_lines self.now.line.shaped.plan self.now.flat.plan self.now.line.k self.now.k self.now.v self.now.table.now (product (layout_of self.now.flat.plan).cuts) }
    {
        let count = self.flat.tile_count() as u32;
        let mut tally = Tally::default();
        // The number of a line, likewise.
        for r in 0..count {
            tally = tally.plus(self.line(r));
        }
        tally
    }
}

// Processor q's faces in slab v along the axis, and its tiles.
pub fn tally_in(axis: Axis, v: u32, q: u32) -> Tally
    requires { (v < get_or axis.shaped.plan.cuts axis.k 0) × (q < axis.shaped.plan.p) × (other_extents (layout_of axis.shaped.plan) (axis.k + 1) ≤ 4294967295) }
    ensures { result ≡ tally_held axis.shaped.plan axis.k v q }
{
    let row = widest(axis.shaped, axis.k);
    let mut table = [Tally::default(); 4096];
    fill_shares(row, q, &mut table);
    let once = flatten(&axis);
    let grid = flatten(&Axis {
        shaped: once,
        k: row.k,
    });
    let line = widest(grid, axis.k);
    let lines = Lines {
        line,
        flat: flatten(&line),
        k: axis.k,
        v,
        up: walks::stride_along(line, true),
        table: &table,
    };
    lines.all()
}
