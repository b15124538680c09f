// A plan in shape, and a dimension of one, as values that carry the fact.
ghost use Rattle.std.specs.Prelude.{◌<◌};
ghost use Rattle.layout.specs.Shaped.{Shaped};

use crate::Plan;

// A plan in shape.
#[derive(Clone, Copy)]
pub struct ShapedPlan {
    pub plan: Plan,
    ghost shaped: { Shaped plan },
}

// A plan in shape, lent: of a question that reads a few of its numbers nothing is copied.
#[derive(Clone, Copy)]
pub struct LentPlan<'a> {
    pub plan: &'a Plan,
    ghost shaped: { Shaped plan.now },
}

// A dimension of a plan in shape, by its place k, counted from 0.
#[derive(Clone, Copy)]
pub struct Axis {
    pub shaped: ShapedPlan,
    pub k: usize,
    ghost within: { k < shaped.plan.d },
}
