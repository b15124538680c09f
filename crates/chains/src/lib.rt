// The chains of a plan's tiles, in two lent lists. The tiles are visited from the highest down, and each visit leads from one stage of the walk to
// the next (document 02, request e). The first dimension runs fastest (request i), and the owner of the tile one step down along a dimension is looked
// up in a table of downward neighbours: no tile takes a division. Dimensions that follow each other are walked as one where they can be.
#![tactic(auto)]

ghost use Rattle.std.specs.Prelude.{true, ◌≡◌, ℕ, ◌+◌, ◌-◌, ◌<◌, ◌≤◌, max, ◌*◌, ◌%◌, eqb, length, replicate};
ghost use Rattle.multipartition.specs.Plans.{tiles_of};
ghost use Rattle.multipartition.specs.Questions.{tile_owner, chains_answer, stage_answer};
ghost use Rattle.refusals.specs.Told.{Answers};
ghost use Rattle.layout.specs.Plans.{layout_of};
ghost use Rattle.chains.specs.Stages.{Visited, Onward};
ghost use Rattle.chains.specs.Walks.{block_size, BlockTop, lower, along, Reaches, nth, TwoSteps, Runs, Leaps, Run, Walks, Tabled, Counted, Continues, Grouped};

use crate::grid::{Grid, Walk};
use layout::{Axis, Plan, ShapedPlan};
use refusals::Refusal;

mod grid; // grid.rt: a plan's grid and the walk over it

// How a line is visited: two owners side by side, or runs whose owners fall, or rise, by one from tile to tile.
#[derive(Clone, Copy)]
enum Way {
    Paired,
    Falling,
    Rising,
}

// A group of dimensions that are counted as one: its place among the counts, and its first dimension.
#[derive(Clone, Copy)]
struct Group {
    at: usize,
    first: usize,
}

// Visits a tile, the highest that is not yet visited: its next is its owner's lowest tile so far, and it becomes the lowest. Its place in the second
// list is `at`; all other places of that list stay. The two lists go side by side, as the caller lends them (document 01): a value that lends both is
// no plainer.
fn visit(tile: u32, at: usize, owner: usize, heads: &mut [u32], nexts: &mut [u32])
    requires { (tile ≡ at + 1) × (tile ≤ length nexts.old) × (owner < 4096) × (owner < length heads.old) }
    ensures { Onward (λ own. own tile ≡ owner) tile at heads.old nexts.old heads.new nexts.new }
{
    nexts[at] = heads[owner];
    heads[owner] = tile;
}

// The processor j further on: above q in a rising run, below it in a falling one. Inlined, so that each direction is compiled for itself.
#[inline(always)]
fn along(rising: bool, q: usize, j: usize) -> usize
    requires { (p : ℕ) × (p ≤ 4096) × Reaches rising p q j }
    ensures { result ≡ along rising q j }
{
    if rising { q + j } else { q - j }
}

// The processor with i others behind it on a run of all p.
#[inline(always)]
fn nth(rising: bool, p: usize, i: usize) -> usize
    requires { i < p }
    ensures { result ≡ nth rising p i }
{
    if rising { p - 1 - i } else { i }
}

// Visits `count` tiles, the highest of them `top`, that belong to the processors from q on, one after the other.
#[inline(always)]
fn visit_run(rising: bool, top: u32, q: usize, count: usize, heads: &mut [u32], nexts: &mut [u32])
    requires { (count ≤ top) × (top ≤ length nexts.old) × (length heads.old ≤ 4096) × ((j : ℕ) → j < count → Reaches rising (length heads.old) q j) }
    ensures { Run (along rising q) top count heads.old nexts.old heads.new nexts.new }
{
    let mut tile = top;
    // An index: the tiles and the owners are counted side by side, the owners up or down.
    for j in 0..count {
        visit(
            tile,
            (top as usize) - (j + 1),
            along(rising, q, j),
            heads,
            nexts,
        );
        tile -= 1;
    }
}

impl<'a> Grid<'a> {
    // The processor one step down from q along place k.
    fn lower(&self, k: usize, q: usize) -> usize
        requires { (k < 5) × (q < self.now.p) }
        ensures { result ≡ lower self.now.downs.now k q }
    {
        usize::from(self.downs[k * 4096 + q])
    }

    // Fills the table of two steps along place 0.
    fn two_steps(&self, twice: &mut [u16; 4096])
        requires { length twice.old ≡ 4096 }
        ensures { TwoSteps self.now.p self.now.downs.now twice.new }
    {
        for (q, two) in twice[..self.p].iter_mut().enumerate() {
            *two = self.downs[self.lower(0, q)];
        }
    }

    // Fills the table of runs along place 0.
    #[inline(always)]
    fn runs(&self, rising: bool, runs: &mut [u16; 4096])
        requires { length runs.old ≡ 4096 }
        ensures { Runs rising self.now.p self.now.downs.now runs.new }
    {
        let mut run: u16 = 0;
        // An index: the runs are counted from the processor at which they end, the first or the last.
        for i in 0..self.p {
            let q = nth(rising, self.p, i);
            run = longer(rising, q, self.lower(0, q), run);
            runs[q] = run;
        }
    }

    // Fills the table of leaps along place 0, and says what it has: runs where they are long and the lines too, else two steps.
    fn leaps(&self, table: &mut [u16; 4096]) -> Way
        requires { (1 ≤ self.now.p) × (length table.old ≡ 4096) }
        ensures { Leaps result self.now.p self.now.downs.now table.new }
    {
        let long = 32 <= self.counts[0];
        self.runs(false, table);
        if long && 32 <= table[self.p - 1] {
            return Way::Falling;
        }
        self.runs(true, table);
        if long && 32 <= table[0] {
            return Way::Rising;
        }
        self.two_steps(table);
        Way::Paired
    }
}

impl<'a> Walk<'a> {
    // Visits a line along place 0. Two owners go along, each taking two steps at once, so that a look-up need not wait for the one before.
    #[inline(always)]
    fn paired_line(self, q: usize, top: u32, stop: u32, heads: &mut [u32], nexts: &mut [u32])
        requires { (self.way ≡ Way.Paired) × (length heads.old ≡ self.grid.p) × (q < self.grid.p) × BlockTop self.grid.counts.now 1 (length nexts.old) top }
        ensures { Walks self.entry.grid.counts.now self.entry.grid.downs.now 1 q stop top heads.old nexts.old heads.new nexts.new }
    {
        let twice = self.leaps;
        let last = stop.max(top - self.grid.counts[0]);
        let mut here = q;
        let mut next = self.grid.lower(0, q);
        for at in (last..top).rev() {
            let after = usize::from(twice[here]);
            visit(at + 1, at as usize, here, heads, nexts);
            here = next;
            next = after;
        }
    }

    // Visits a line along place 0 by runs.
    #[inline(always)]
    fn run_line(
        self,
        rising: bool,
        q: usize,
        top: u32,
        stop: u32,
        heads: &mut [u32],
        nexts: &mut [u32],
    )
        requires { (Runs rising self.grid.p self.grid.downs.now self.leaps.now) × (length heads.old ≡ self.grid.p) × (q < self.grid.p) × BlockTop self.grid.counts.now 1 (length nexts.old) top }
        ensures { Walks self.entry.grid.counts.now self.entry.grid.downs.now 1 q stop top heads.old nexts.old heads.new nexts.new }
    {
        let last = stop.max(top - self.grid.counts[0]);
        let mut tile = top;
        let mut here = q;
        // A turn takes a run of tiles: no `for` counts runs.
        while last < tile {
            let n = (usize::from(self.leaps[here]) + 1).min((tile - last) as usize);
            visit_run(rising, tile, here, n, heads, nexts);
            here = self.grid.lower(0, along(rising, here, n - 1));
            tile -= n as u32;
        }
    }

    // Visits a line along place 0, by what the table of leaps has.
    #[inline(always)]
    fn line(self, q: usize, top: u32, stop: u32, heads: &mut [u32], nexts: &mut [u32])
        requires { (length heads.old ≡ self.grid.p) × (q < self.grid.p) × BlockTop self.grid.counts.now 1 (length nexts.old) top }
        ensures { Walks self.entry.grid.counts.now self.entry.grid.downs.now 1 q stop top heads.old nexts.old heads.new nexts.new }
    {
        match self.way {
            Way::Paired => self.paired_line(q, top, stop, heads, nexts),
            Way::Falling => self.run_line(false, q, top, stop, heads, nexts),
            Way::Rising => self.run_line(true, q, top, stop, heads, nexts),
        }
    }

    // Visits a block of level 2, line by line, and gives the tile below it.
    #[inline(always)]
    fn lines(self, q: usize, top: u32, stop: u32, heads: &mut [u32], nexts: &mut [u32]) -> u32
        requires { (length heads.old ≡ self.grid.p) × (q < self.grid.p) × BlockTop self.grid.counts.now 2 (length nexts.old) top }
        ensures { (result ≡ top - block_size self.entry.grid.counts.now 2) × (Walks self.entry.grid.counts.now self.entry.grid.downs.now 2 q stop top heads.old nexts.old heads.new nexts.new) }
    {
        let mut tile = top;
        let mut at = q;
        for _ in 0..self.grid.counts[1] {
            self.line(at, tile, stop, heads, nexts);
            at = self.grid.lower(1, at);
            tile -= self.grid.counts[0];
        }
        tile
    }

    // Visits a block, level by level down to lines, and gives the tile below it.
    fn block(
        &self,
        level: usize,
        q: usize,
        top: u32,
        stop: u32,
        heads: &mut [u32],
        nexts: &mut [u32],
    ) -> u32
        requires { (2 ≤ level) × (level ≤ 5) × (length heads.old ≡ self.now.grid.p) × (q < self.now.grid.p) × BlockTop self.now.grid.counts.now level (length nexts.old) top }
        ensures { (result ≡ top - block_size self.now.grid.counts.now level) × (Walks self.now.grid.counts.now self.now.grid.downs.now level q stop top heads.old nexts.old heads.new nexts.new) }
    {
        if level == 2 {
            return self.lines(q, top, stop, heads, nexts);
        }
        let k = level - 1;
        let mut tile = top;
        let mut at = q;
        for _ in 0..self.grid.counts[k] {
            tile = self.block(k, at, tile, stop, heads, nexts);
            at = self.grid.lower(k, at);
        }
        tile
    }
}

// One more than `run`, the run of the processor behind q, if the processor one step down from q goes on with it, and else 0.
#[inline(always)]
fn longer(rising: bool, q: usize, next: usize, run: u16) -> u16
    requires { (q < 4096) × (next < 4096) × (run < 4096) }
    ensures { 1 ≤ result → (Reaches rising 4097 q 1) × (next ≡ along rising q 1) × (result ≡ run + 1) }
{
    let goes_on = if rising { next == q + 1 } else { next + 1 == q };
    if goes_on {
        return run + 1;
    }
    0
}

// The owner of the highest tile.
fn top_owner(shaped: &ShapedPlan) -> usize
    ensures { (result ≡ tile_owner (layout_of shaped.now.plan) (tiles_of (layout_of shaped.now.plan))) × (result < shaped.now.plan.p) }
{
    let mut at = shaped.plan.cuts;
    let coordinates = &mut at[..shaped.plan.d];
    for coordinate in coordinates.iter_mut() {
        *coordinate -= 1;
    }
    questions::owners(shaped).owner(coordinates) as usize
}

// Makes table c that of the downward neighbours along a dimension.
fn table(axis: &Axis, c: usize, downs: &mut [u16; 20480])
    requires { (c < 5) × (length downs.old ≡ 20480) }
    ensures { Tabled axis.now.shaped.plan axis.now.k c downs.old downs.new }
{
    let owners = questions::owners(&axis.shaped);
    let from = c * 4096;
    let to = from + axis.shaped.plan.p as usize;
    for (q, below) in downs[from..to].iter_mut().enumerate() {
        *below = owners.neighbour(axis.k, false, q as u32) as u16;
    }
}

// Whether g steps by a are one step by b, modulo m.
fn same_step(g: u32, a: u32, b: u32, m: u32) -> bool
    requires { 1 ≤ m }
    ensures { result ≡ eqb ((g * a) % m) b }
{
    u64::from(g) * u64::from(a) % u64::from(m) == u64::from(b)
}

// Whether one step along a dimension is g steps along dimension `first`. A dimension that is not cut has no step, and goes on with any.
fn continues(axis: &Axis, g: u32, first: usize) -> bool
    requires { first < axis.now.shaped.plan.d }
    ensures { result ≡ true → Continues axis.now.shaped.plan g first axis.now.k }
{
    let plan = &axis.shaped.plan;
    // An index: row i of the matrix stands at places 5 * i on, and its modulus at place i.
    axis.cut() == 1
        || (0..plan.d).all(|i| {
            same_step(
                g,
                plan.matrix[i * 5 + first],
                plan.matrix[i * 5 + axis.k],
                plan.moduli[i],
            )
        })
}

// Counts a dimension: in the last group, if it goes on there, or in a group of its own, which takes the place of a last group of one tile.
fn join(axis: &Axis, group: Group, counts: &mut [u32; 5], downs: &mut [u16; 20480]) -> Group
    requires { Grouped axis.now.shaped.plan axis.now.k group.at group.first counts.old downs.old }
    ensures { Grouped axis.now.shaped.plan (axis.now.k + 1) result.at result.first counts.new downs.new }
{
    let g = counts[group.at];
    let b = axis.cut();
    if continues(axis, g, group.first) {
        counts[group.at] = g * b;
        return group;
    }
    let c = group.at + usize::from(g != 1);
    table(axis, c, downs);
    counts[c] = b;
    Group {
        at: c,
        first: axis.k,
    }
}

// The counts of a plan, with their tables.
fn tables(shaped: &ShapedPlan, downs: &mut [u16; 20480]) -> [u32; 5]
    requires { downs.old ≡ replicate 20480 0 }
    ensures { Counted shaped.now.plan result downs.new }
{
    let first = Axis {
        shaped: *shaped,
        k: 0,
    };
    let mut counts = [1; 5];
    table(&first, 0, downs);
    counts[0] = shaped.plan.cuts[0];
    let mut group = Group { at: 0, first: 0 };
    for k in 1..shaped.plan.d {
        group = join(&Axis { shaped: *shaped, k }, group, &mut counts, downs);
    }
    counts
}

// Visits the tiles above `stop`, from the highest down.
fn visit_above(shaped: &ShapedPlan, stop: u32, heads: &mut [u32], nexts: &mut [u32])
    requires within { stop ≤ tiles_of (layout_of shaped.now.plan) }
    requires visited { Visited shaped.now.plan (tiles_of (layout_of shaped.now.plan)) nexts.old heads.old nexts.old }
    ensures { Visited shaped.now.plan stop nexts.old heads.new nexts.new }
{
    let mut downs = [0; 20480];
    let counts = tables(shaped, &mut downs);
    let grid = Grid {
        p: shaped.plan.p as usize,
        counts: &counts,
        downs: &downs,
    };
    let mut leaps = [0; 4096];
    let way = grid.leaps(&mut leaps);
    let walk = Walk {
        grid,
        way,
        leaps: &leaps,
    };
    let top = shaped.tile_count() as u32;
    walk.block(5, top_owner(shaped), top, stop, heads, nexts);
}

// Clears the first list and visits the tiles above `stop`.
fn fill(shaped: &ShapedPlan, stop: u32, heads: &mut [u32], nexts: &mut [u32])
    requires { (stop ≤ tiles_of (layout_of shaped.now.plan)) × (length heads.old ≡ shaped.now.plan.p) × (length nexts.old ≡ tiles_of (layout_of shaped.now.plan)) }
    ensures { Visited shaped.now.plan stop nexts.old heads.new nexts.new }
{
    heads.fill(0);
    visit_above(shaped, stop, heads, nexts);
}

// The chain call as far as stage `stop`, whichever it is.
fn chains_to(plan: Plan, stop: u32, heads: &mut [u32], nexts: &mut [u32]) -> Result<(), Refusal>
    requires { stop ≤ tiles_of (layout_of plan) }
    ensures { Answers (stage_answer (layout_of plan) stop (length heads.old) nexts.old) result (heads.old, nexts.old) (heads.new, nexts.new) }
{
    let shaped = plan.checked()?;
    if heads.len() != shaped.plan.p as usize || nexts.len() != shaped.tile_count() {
        return Err(Refusal::Room);
    }
    fill(&shaped, stop, heads, nexts);
    Ok(())
}

// The first list gets each processor's lowest tile, the second, for each tile, its owner's next higher one.
pub fn chains(plan: Plan, heads: &mut [u32], nexts: &mut [u32]) -> Result<(), Refusal>
    ensures { Answers (chains_answer (layout_of plan) (length heads.old) (length nexts.old)) result (heads.old, nexts.old) (heads.new, nexts.new) }
{
    chains_to(plan, 0, heads, nexts)
}
