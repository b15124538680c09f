// Tiles and slabs of a plan.
#![tactic(auto)]

mod cut; // cut.rt: a dimension's extent and its cut, as a value that carries its ranges
pub mod positions; // positions.rt: a tile's position, its number, and the position one step on
pub mod slabs; // slabs.rt: the elements of a slab, and the slab of an element
