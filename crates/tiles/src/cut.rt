// The slabs of a dimension, as a value that carries the ranges of its extent and its cut.
ghost use Rattle.tiles.specs.Slabs.{IsCut};

// The slabs of an extent of elements, as many as its cut.
#[derive(Clone, Copy)]
pub struct Slabs {
    pub extent: u32,
    pub cut: u32,
    ghost ranges: { IsCut extent cut },
}
