// Walks from neighbour to neighbour along one dimension: coordinates and stride are found once, and no step divides. Places are counted from
// 0. A step goes through all five, so that its loop is laid out in a row: past d it adds 0 modulo 1.
#![tactic(auto)]

ghost use Rattle.std.specs.Prelude.{◌<◌, ◌≡◌};
ghost use Rattle.walks.specs.Walks.{IsProcessor, stride_of, Strides, Walkable, Steps};

use layout::{Axis, ShapedPlan};
use questions::modulo;

// A processor by its number and its coordinates, zero past d.
#[derive(Clone, Copy)]
pub struct Coordinated {
    pub number: u32,
    pub coordinates: [u32; 5],
}

// The moduli of a plan, and what a step adds to each coordinate. Five places, as in a plan: those past d leave a processor as it is.
#[derive(Clone, Copy)]
pub struct Stride {
    pub moduli: [u32; 5],
    pub added: [u32; 5],
}

// The processor with its coordinates, from the last, which runs fastest, to the first.
pub fn with_coordinates(shaped: ShapedPlan, processor: u32) -> Coordinated
    ensures { IsProcessor shaped.plan processor result }
{
    let plan = &shaped.plan;
    let mut coordinates = [0; 5];
    let mut rest = processor;
    // An index beside the item: it is the place that is written.
    for (i, m) in plan.moduli[..plan.d].iter().enumerate().rev() {
        coordinates[i] = rest % *m;
        rest = rest / *m;
    }
    Coordinated {
        number: processor,
        coordinates,
    }
}

// What is added to a coordinate in place of an entry that is added (up) or taken off (down), modulo m.
fn to_add(up: bool, m: u32, entry: u32) -> u32
    requires { entry < m }
    ensures { result ≡ stride_of up m entry }
{
    if up {
        return entry;
    }
    modulo(m, m - entry)
}

// The stride along a dimension, up or down.
pub fn stride_along(axis: Axis, up: bool) -> Stride
    ensures { Strides axis.shaped.plan axis.k up result }
{
    let plan = &axis.shaped.plan;
    let mut moduli = [1; 5];
    let mut added = [0; 5];
    // An index beside the item: it is the place that is written, in two lists.
    for (i, m) in plan.moduli[..plan.d].iter().enumerate() {
        let at = i * 5 + axis.k;
        moduli[i] = *m;
        added[i] = to_add(up, *m, plan.matrix[at]);
    }
    Stride { moduli, added }
}

// The neighbour, one stride on.
pub fn next(stride: Stride, from: Coordinated) -> Coordinated
    requires { Walkable stride from }
    ensures { Steps stride from result }
{
    let mut number: u32 = 0;
    let mut coordinates = [0; 5];
    // An index beside the item: of a list that is written through `iter_mut().zip(..)` a proof knows only the length.
    for (i, m) in stride.moduli.iter().enumerate() {
        let c = modulo(*m, from.coordinates[i] + stride.added[i]);
        coordinates[i] = c;
        number = number * *m + c;
    }
    Coordinated {
        number,
        coordinates,
    }
}
