// A tile's position by value: its number, and the position one step on. Dimensions and tiles are numbered from 1, slabs from 0.
ghost use Rattle.std.specs.Prelude.{◌≡◌, ◌<◌, ◌≤◌, get_or, set};
ghost use Rattle.multipartition.specs.Answers.{answered};
ghost use Rattle.multipartition.specs.MixedRadix.{number_up, digits_up};
ghost use Rattle.multipartition.specs.Tiles.{is_inside, one_step_on};
ghost use Rattle.multipartition.specs.Questions.{number_answer, step_answer, position_answer};
ghost use Rattle.refusals.specs.Told.{told, maybe};
ghost use Rattle.layout.specs.Plans.{layout_of};
ghost use Rattle.layout.specs.Positions.{InGrid};
ghost use Rattle.tiles.specs.Positions.{coordinates, position_with};
ghost use Rattle.tiles.specs.Answers.{Moves, Locates, stepped_to};

use layout::{LentPlan, Plan};
use refusals::Refusal;
use std::array;

// The coordinate along dimension k stands at place k - 1. Places past d are never read, and are zero in answers.
#[derive(Clone, Copy)]
pub struct Position {
    pub d: usize,
    pub at: [u32; 5],
}

impl Position {
    // Whether the position is one of the grid of a plan.
    fn in_grid(self, grid: LentPlan) -> bool
        ensures { result ≡ is_inside (layout_of grid.entry.plan.now).cuts (coordinates self) }
    {
        let d = grid.plan.d;
        self.d == d
            && self.at[..d]
                .iter()
                .zip(&grid.plan.cuts[..d])
                .all(|(i, b)| i < b)
    }

    // The number that the coordinates make in mixed radix, from 0 on: from the last to the first, which runs fastest.
    fn number_from_zero(self, grid: LentPlan) -> u32
        requires { InGrid grid.plan.now (coordinates self) }
        ensures { (result ≡ number_up (layout_of grid.entry.plan.now).cuts (coordinates self)) × (result < 16777216) }
    {
        let d = grid.plan.d;
        let mut number = 0;
        for (i, b) in self.at[..d]
            .iter()
            .rev()
            .zip(grid.plan.cuts[..d].iter().rev())
        {
            number = number * b + i;
        }
        number
    }

    // The tile's number.
    pub fn number(self, plan: Plan) -> Result<u32, Refusal>
        ensures { told result ≡ number_answer (layout_of plan) (coordinates self) }
    {
        let grid = plan.lent()?;
        if !self.in_grid(grid) {
            return Err(Refusal::Range);
        }
        Ok(1 + self.number_from_zero(grid))
    }

    // The number at a place, with x at place k: zero past d.
    fn place_with(self, i: usize, k: usize, x: u32) -> u32
        requires { (self.d ≤ 5) × (k < self.d) }
        ensures { result ≡ get_or (set (coordinates self) k x) i 0 }
    {
        if i == k {
            x
        } else if i < self.d {
            self.at[i]
        } else {
            0
        }
    }

    // The position with coordinate x at place k.
    fn with(self, k: usize, x: u32) -> Position
        requires { (self.d ≤ 5) × (k < self.d) }
        ensures { result ≡ position_with (set (coordinates self) k x) }
    {
        Position {
            d: self.d,
            at: array::from_fn(|i| self.place_with(i, k, x)),
        }
    }

    // The position one step on along a dimension of its grid, up or down; none is the edge.
    fn one_step_on(self, grid: LentPlan, k: usize, up: bool) -> Option<Position>
        requires { (InGrid grid.plan.now (coordinates self)) × (k < grid.plan.now.d) }
        ensures { Moves (answered (one_step_on (layout_of grid.entry.plan.now).cuts k up (coordinates self))) (Ok result) }
    {
        let x = self.at[k];
        let next = if up { x + 1 } else { x.checked_sub(1)? };
        if next < grid.plan.cuts[k] {
            Some(self.with(k, next))
        } else {
            None
        }
    }

    // The position one step on along a dimension, up or down; none is the edge.
    pub fn step(self, plan: Plan, dimension: usize, up: bool) -> Result<Option<Position>, Refusal>
        ensures { Moves (step_answer (layout_of plan) (coordinates self) dimension up) result }
    {
        let grid = plan.lent()?;
        if !plan.has_dimension(dimension) {
            return Err(Refusal::Dimension);
        }
        if !self.in_grid(grid) {
            return Err(Refusal::Range);
        }
        Ok(self.one_step_on(grid, dimension - 1, up))
    }
}

// The coordinates that make a number in mixed radix, from 0 on: from the first, which runs fastest, to the last.
fn digits(grid: LentPlan, n: u32) -> Position
    ensures { result ≡ position_with (digits_up (layout_of grid.entry.plan.now).cuts n) }
{
    let d = grid.plan.d;
    let mut at = [0; 5];
    let mut rest = n;
    // An index beside the item: it is the place that is written.
    for (k, b) in grid.plan.cuts[..d].iter().enumerate() {
        at[k] = rest % b;
        rest /= b;
    }
    Position { d, at }
}

// The position of a tile.
pub fn position_of(plan: Plan, tile: u32) -> Result<Position, Refusal>
    ensures { Locates (position_answer (layout_of plan) tile) result }
{
    let grid = plan.lent()?;
    if tile < 1 || grid.tile_count() < tile as usize {
        return Err(Refusal::Range);
    }
    Ok(digits(grid, tile - 1))
}
