// The slabs of a dimension as a sheet lists them, as a value that carries the ranges of its numbers.
ghost use Rattle.sheet.specs.Pages.{Fits};

use tiles::slabs::Slabs;

// The slabs, and the tiles per processor of each.
#[derive(Clone, Copy)]
pub struct Listed {
    pub slabs: Slabs,
    pub share: u64,
    ghost fits: { Fits slabs.extent slabs.cut share },
}
