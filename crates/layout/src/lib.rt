// A plan by value, its lists lent, and the check that it is in shape.
#![tactic(auto)]

ghost use Rattle.std.specs.Prelude.{◌&&◌, ◌≡◌, ◌*◌, ◌<◌, ◌≤◌, leb, ltb, length, take, get_or};
ghost use Rattle.numbers.specs.Products.{product};
ghost use Rattle.multipartition.specs.Lists.{all_below};
ghost use Rattle.multipartition.specs.Plans.{between, in_shape, tiles_of};
ghost use Rattle.refusals.specs.Told.{told_by};
ghost use Rattle.layout.specs.Plans.{layout_of, no_plan};
ghost use Rattle.layout.specs.Shaped.{Ranges, entry_of, row_fits, place_fits, Factors};
ghost use Rattle.layout.specs.Lent.{Lent, is_lent, lent_plan, plan_lent, Lends};
ghost use Rattle.layout.specs.Checked.{shape_answer, dimension_answer, axis_answer, axis_of};

pub use crate::axes::{Axis, LentPlan, ShapedPlan};
use refusals::Refusal;

mod axes; // axes.rt: a plan in shape, and its dimensions

// Lists hold dimension k at place k - 1, and row i of the matrix stands at places 5 * (i - 1) on. Places past d are zero in a plan that a call
// answers, and are never read. The kind is 0 for the planner's plans and 1 for diagonal ones, a number,
// since a plan of another kind is to be turned down and so must be possible. No slab of a dimension has fewer elements than its least
// thickness.
#[derive(Clone, Copy)]
pub struct Plan {
    pub d: usize,
    pub p: u32,
    pub extents: [u32; 5],
    pub weights: [u32; 5],
    pub cuts: [u32; 5],
    pub cost: u64,
    pub moduli: [u32; 5],
    pub matrix: [u32; 25],
    pub kind: u32,
    pub least: [u32; 5],
}

// The lists of a plan, lent: those that a question reads, of which nothing is copied. Lists of other lengths than a plan's are no plan's.
#[derive(Clone, Copy)]
pub struct PlanLists<'a> {
    pub d: usize,
    pub p: u32,
    pub kind: u32,
    pub extents: &'a [u32],
    pub cuts: &'a [u32],
    pub moduli: &'a [u32],
    pub matrix: &'a [u32],
    pub least: &'a [u32],
}

// The plan of zeros.
pub fn no_plan() -> Plan
    ensures { result ≡ no_plan }
{
    Plan {
        d: 0,
        p: 0,
        extents: [0; 5],
        weights: [0; 5],
        cuts: [0; 5],
        cost: 0,
        moduli: [0; 5],
        matrix: [0; 25],
        kind: 0,
        least: [0; 5],
    }
}

// Whether an extent and its cut are in range. Here and below the tests are put together by `&`: no test waits for another, and the shape is asked for
// with every question.
fn dimension_ok(extent: u32, cut: u32) -> bool
    ensures { result ≡ (between 1 1000000 extent && between 1 extent cut && leb cut 4096) }
{
    (1 <= extent) & (extent <= 1000000) & (1 <= cut) & (cut <= extent) & (cut <= 4096)
}

// Whether a least thickness is not 0, and its cut times it not above its extent.
fn least_ok(extent: u32, least: u32, cut: u32) -> bool
    ensures { result ≡ (leb 1 least && leb (cut * least) extent) }
{
    (1 <= least) & (u64::from(cut) * u64::from(least) <= u64::from(extent))
}

impl<'a> PlanLists<'a> {
    // Whether the lists have the places that a plan's have.
    fn have_places(self) -> bool
        ensures { result ≡ is_lent self.entry.extents.now self.entry.cuts.now self.entry.moduli.now self.entry.matrix.now self.entry.least.now }
    {
        (self.extents.len() == 5)
            & (self.cuts.len() == 5)
            & (self.moduli.len() == 5)
            & (self.matrix.len() == 25)
            & (self.least.len() == 5)
    }

    // Whether the first d entries of row i are below m.
    fn entries_below(self, i: usize, m: u32) -> bool
        requires { (i < 5) × (self.d ≤ 5) × (length self.matrix.now ≡ 25) }
        ensures { result ≡ all_below self.entry.d (λ j. ltb (entry_of self.entry.matrix.now i j) m) }
    {
        let row = i * 5;
        let mut ok = true;
        for entry in &self.matrix[row..row + self.d] {
            ok &= *entry < m;
        }
        ok
    }

    // Whether the modulus of row i is in range, and the row's entries are below it. A modulus above 4,096 multiplies to no p with others that are not 0.
    fn row_ok(self, i: usize) -> bool
        requires { (i < self.d) × (self.d ≤ 5) × (Lent self.extents.now self.cuts.now self.moduli.now self.matrix.now self.least.now) }
        ensures { result ≡ row_fits self.entry.d self.entry.moduli.now self.entry.matrix.now i }
    {
        let m = self.moduli[i];
        (1 <= m) & (m <= 4096) & self.entries_below(i, m)
    }

    // Whether extent, cut, least thickness and row of dimension k + 1 are in range.
    fn place_ok(self, k: usize) -> bool
        requires { (k < self.d) × (self.d ≤ 5) × (Lent self.extents.now self.cuts.now self.moduli.now self.matrix.now self.least.now) }
        ensures { result ≡ place_fits self.entry.d self.entry.extents.now self.entry.cuts.now self.entry.moduli.now self.entry.matrix.now self.entry.least.now k }
    {
        let extent = self.extents[k];
        let cut = self.cuts[k];
        dimension_ok(extent, cut) & least_ok(extent, self.least[k], cut) & self.row_ok(k)
    }

    // Whether every dimension is in range, there are at most 16,777,216 tiles, and the moduli multiply to p.
    fn places_ok(self) -> bool
        requires { (Ranges self.d self.p self.kind) × (Lent self.extents.now self.cuts.now self.moduli.now self.matrix.now self.least.now) }
        ensures { result ≡ in_shape (layout_of (lent_plan self.entry.d self.entry.p self.entry.kind self.entry.extents.now self.entry.cuts.now self.entry.moduli.now self.entry.matrix.now self.entry.least.now)) }
    {
        let mut tiles: u64 = 1;
        let mut processors: u64 = 1;
        // An index: k is a dimension's place in all five lists.
        for k in 0..self.d {
            if !self.place_ok(k) {
                return false;
            }
            tiles *= u64::from(self.cuts[k]);
            processors *= u64::from(self.moduli[k]);
        }
        (tiles <= 16777216) & (processors == u64::from(self.p))
    }

    // Whether d, p and the kind are in range.
    fn in_ranges(self) -> bool
        ensures { result ≡ (between 2 5 self.entry.d && between 1 4096 self.entry.p && leb self.entry.kind 1) }
    {
        (2 <= self.d) & (self.d <= 5) & (1 <= self.p) & (self.p <= 4096) & (self.kind <= 1)
    }

    // Whether the plan of these lists is in shape: that of lists of other lengths than a plan's is not.
    pub fn in_shape(self) -> bool
        ensures { result ≡ in_shape (layout_of (plan_lent self.entry)) }
    {
        if !self.have_places() {
            return false;
        }
        if !self.in_ranges() {
            return false;
        }
        self.places_ok()
    }
}

impl Plan {
    // Its lists, lent.
    pub fn lists(&self) -> PlanLists<'_>
        ensures lent { Lends self.now result }
        ensures places { Lent result.extents.now result.cuts.now result.moduli.now result.matrix.now result.least.now }
    {
        PlanLists {
            d: self.d,
            p: self.p,
            kind: self.kind,
            extents: &self.extents,
            cuts: &self.cuts,
            moduli: &self.moduli,
            matrix: &self.matrix,
            least: &self.least,
        }
    }

    // Whether it is in shape: refusal 6 is for the others.
    pub fn in_shape(&self) -> bool
        ensures { result ≡ in_shape (layout_of self.now) }
    {
        self.lists().in_shape()
    }

    // The plan as one in shape.
    pub fn checked(&self) -> Result<ShapedPlan, Refusal>
        ensures { told_by (λ shaped. shaped.plan) result ≡ shape_answer self.now }
    {
        let lent = self.lent()?;
        Ok(ShapedPlan { plan: *lent.plan })
    }

    // The plan as one in shape, lent.
    pub fn lent(&self) -> Result<LentPlan<'_>, Refusal>
        ensures { told_by (λ lent. lent.plan.now) result ≡ shape_answer self.now }
    {
        if !self.in_shape() {
            return Err(Refusal::Shape);
        }
        Ok(LentPlan { plan: self })
    }

    // Whether it has a dimension, counted from 1: refusal 7 is for the others.
    pub fn has_dimension(&self, dimension: usize) -> bool
        ensures { result ≡ between 1 (layout_of self.now).d dimension }
    {
        (1..=self.d).contains(&dimension)
    }

    // A dimension of the plan, counted from 1.
    pub fn along(&self, dimension: usize) -> Result<Axis, Refusal>
        ensures { told_by axis_of result ≡ axis_answer self.now dimension }
    {
        self.checked()?.along(dimension)
    }
}

impl ShapedPlan {
    // A dimension of the plan, counted from 1.
    pub fn along(self, dimension: usize) -> Result<Axis, Refusal>
        ensures { told_by axis_of result ≡ dimension_answer self.plan dimension }
    {
        if !self.plan.has_dimension(dimension) {
            return Err(Refusal::Dimension);
        }
        Ok(Axis {
            shaped: self,
            k: dimension - 1,
        })
    }

    // How many tiles it has.
    pub fn tile_count(self) -> usize
        ensures { result ≡ tiles_of (layout_of self.plan) }
    {
        let lent = LentPlan { plan: &self.plan };
        lent.tile_count()
    }
}

impl<'a> LentPlan<'a> {
    // How many tiles it has.
    pub fn tile_count(self) -> usize
        ensures { result ≡ tiles_of (layout_of self.entry.plan.now) }
    {
        let cuts = &self.plan.cuts[..self.plan.d];
        product_of(cuts) as usize
    }
}

impl Axis {
    // The extent, the cut and the least thickness of the dimension.
    pub fn extent(self) -> u32
        ensures { result ≡ get_or self.shaped.plan.extents self.k 0 }
    {
        self.shaped.plan.extents[self.k]
    }

    pub fn cut(self) -> u32
        ensures { result ≡ get_or self.shaped.plan.cuts self.k 0 }
    {
        self.shaped.plan.cuts[self.k]
    }
}

// The product of at most five numbers, each from 1 to 4,096.
fn product_of(numbers: &[u32]) -> u64
    requires { Factors (length numbers.now) numbers.now }
    ensures { result ≡ product numbers.now }
{
    let mut all: u64 = 1;
    for number in numbers {
        all *= u64::from(*number);
    }
    all
}
