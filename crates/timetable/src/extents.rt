// Whether the product of the other extents fits 32 bits, so that every message length does: refusal 11 is for the others.
ghost use Rattle.std.specs.Prelude.{cond, ◌≡◌, ◌+◌, ◌≤◌, leb, All};
ghost use Rattle.numbers.specs.Products.{product};
ghost use Rattle.layout.specs.Plans.{layout_of};
ghost use Rattle.timetable.specs.Timetable.{other_extents};

use layout::Axis;

// The product of the numbers, none of them 0, if it is at most 4,294,967,295. It stops at the first product above, since no later one is smaller.
fn product(numbers: &[u32]) -> Option<u32>
    requires { All (λ number. 1 ≤ number) numbers.now }
    ensures { result ≡ cond (leb (product numbers.now) 4294967295) (Some (product numbers.now)) None }
{
    let mut all: u32 = 1;
    for number in numbers {
        all = all.checked_mul(*number)?;
    }
    Some(all)
}

// Whether the product of the other extents than the axis's own is at most 4,294,967,295.
pub fn others_fit(axis: Axis) -> bool
    ensures { result ≡ leb (other_extents (layout_of axis.shaped.plan) (axis.k + 1)) 4294967295 }
{
    let mut others = axis.shaped.plan.extents;
    others[axis.k] = 1;
    product(&others[..axis.shaped.plan.d]).is_some()
}
