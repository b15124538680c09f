// A plan's grid as the walk goes over it, and the walk with its table of leaps, as values that carry what is known of the tables.
ghost use Rattle.chains.specs.Walks.{Tables, Leaps};

use crate::Way;

// p processors, five counts, and the tables of downward neighbours.
#[derive(Clone, Copy)]
pub(crate) struct Grid<'a> {
    pub(crate) p: usize,
    pub(crate) counts: &'a [u32; 5],
    pub(crate) downs: &'a [u16; 20480],
    ghost tables: { Tables p counts.now downs.now },
}

// A walk over a grid: how its lines are visited, and the table for that. Lines take it by value, and the stage up to which it goes beside it: lent,
// both would be read again in every line, and the 0 of the chain call compared (docs/DECISIONS.md 40).
#[derive(Clone, Copy)]
pub(crate) struct Walk<'a> {
    pub(crate) grid: Grid<'a>,
    pub(crate) way: Way,
    pub(crate) leaps: &'a [u16; 4096],
    ghost leaping: { Leaps way grid.p grid.downs.now leaps.now },
}
