// The edge behind a slab, as a value that carries where it lies.
ghost use Rattle.probes.specs.Edges.{Behind};

use tiles::slabs::Slabs;

// The edge behind a slab: the element after its last.
#[derive(Clone, Copy)]
pub struct Edge {
    pub slabs: Slabs,
    pub slab: u32,
    pub after: u32,
    ghost behind: { Behind slabs.extent slabs.cut slab after },
}
