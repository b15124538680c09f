// The elements of a slab, and the slab of an element. Dimensions are numbered from 1, slabs and elements from 0.
ghost use Rattle.std.specs.Prelude.{◌≡◌, ◌<◌, ◌≤◌, get_or};
ghost use Rattle.multipartition.specs.Slabs.{slab_start, slab_end, thickness, slab_of};
ghost use Rattle.multipartition.specs.Questions.{slab_answer, slab_of_answer};
ghost use Rattle.refusals.specs.Told.{told, told_by};
ghost use Rattle.layout.specs.Plans.{layout_of};
ghost use Rattle.tiles.specs.Answers.{slabs_answer};

pub use crate::cut::Slabs;
use layout::{Axis, Plan};
use refusals::Refusal;
use std::ops::Range;

// The first element of slab s of n elements in b slabs: the first n % b slabs have one element more than the others. s * (n / b) is at most n.
// Public and of plain numbers: it asks less than a value of `Slabs` does.
#[tactic(auto, unfolding(multipartition::specs::Slabs::slab_start))]
pub fn start(n: u32, b: u32, s: u32) -> u32
    requires { (n ≤ 1000000) × (1 ≤ b) × (b ≤ 4096) × (s ≤ b) }
    ensures { result ≡ slab_start n b s }
{
    s * (n / b) + s.min(n % b)
}

// The number of elements of slab s of n elements in b slabs. Public and of plain numbers, likewise.
#[tactic(auto, using(multipartition::proofs::Slabs::slab_end_is))]
pub fn thickness(n: u32, b: u32, s: u32) -> u32
    requires { (n ≤ 1000000) × (1 ≤ b) }
    ensures { result ≡ thickness n b s }
{
    n / b + u32::from(s < n % b)
}

impl Slabs {
    // The slabs of a dimension of a plan, or the refusals 6 and 7. Nothing of the plan is copied: inlined, the link reads its list and makes no plan.
    #[inline(always)]
    pub fn of(plan: &Plan, dimension: usize) -> Result<Slabs, Refusal>
        ensures { told_by (λ slabs. (slabs.extent, slabs.cut)) result ≡ slabs_answer plan.now dimension }
    {
        let lent = plan.lent()?;
        if !lent.plan.has_dimension(dimension) {
            return Err(Refusal::Dimension);
        }
        let k = dimension - 1;
        Ok(Slabs {
            extent: lent.plan.extents[k],
            cut: lent.plan.cuts[k],
        })
    }

    // The slabs of a dimension of a plan in shape.
    pub fn along(axis: Axis) -> Slabs
        ensures extent { result.extent ≡ get_or axis.shaped.plan.extents axis.k 0 }
        ensures cut { result.cut ≡ get_or axis.shaped.plan.cuts axis.k 0 }
    {
        Slabs {
            extent: axis.extent(),
            cut: axis.cut(),
        }
    }

    // The first element of slab s.
    pub fn start(self, s: u32) -> u32
        requires { s ≤ self.cut }
        ensures { result ≡ slab_start self.extent self.cut s }
    {
        start(self.extent, self.cut, s)
    }

    // The number of elements of slab s.
    pub fn thickness(self, s: u32) -> u32
        ensures { result ≡ thickness self.extent self.cut s }
    {
        thickness(self.extent, self.cut, s)
    }

    // The elements of slab s.
    pub fn elements(self, s: u32) -> Range<u32>
        requires { s < self.cut }
        ensures start { result.start ≡ slab_start self.extent self.cut s }
        ensures end { result.end ≡ slab_end self.extent self.cut s }
    {
        self.start(s)..self.start(s + 1)
    }

    // The slab of an element: among the first extent % cut slabs, or behind them.
    #[tactic(auto, using(multipartition::proofs::Slabs::slab_of_thick, multipartition::proofs::Slabs::slab_of_thin))]
    pub fn holding(self, element: u32) -> u32
        requires { element < self.extent }
        ensures { result ≡ slab_of self.extent self.cut element }
    {
        let thin = self.extent / self.cut;
        let thick = thin + 1;
        let more = self.extent % self.cut;
        let behind = more * thick;
        if element < behind {
            element / thick
        } else {
            more + (element - behind) / thin
        }
    }
}

// The elements of a slab of a dimension.
pub fn slab_elements(plan: Plan, dimension: usize, slab: u32) -> Result<Range<u32>, Refusal>
    ensures { told_by (λ elements. (elements.start, elements.end)) result ≡ slab_answer (layout_of plan) dimension slab }
{
    let slabs = Slabs::of(&plan, dimension)?;
    if slabs.cut <= slab {
        return Err(Refusal::Range);
    }
    Ok(slabs.elements(slab))
}

// The slab that holds an element of a dimension.
pub fn slab_of(plan: Plan, dimension: usize, element: u32) -> Result<u32, Refusal>
    ensures { told result ≡ slab_of_answer (layout_of plan) dimension element }
{
    let slabs = Slabs::of(&plan, dimension)?;
    if slabs.extent <= element {
        return Err(Refusal::Range);
    }
    Ok(slabs.holding(element))
}
