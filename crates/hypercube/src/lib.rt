// The hypercube layout: who owns a position, of 4 to the power e processors and three dimensions of 2 to the power e slabs.
#![tactic(auto)]

ghost use Rattle.std.specs.Prelude.{◌≡◌, ◌+◌, ◌*◌, ◌%◌, ◌≤◌, ◌<◌};
ghost use Rattle.refusals.specs.Told.{told};
ghost use Rattle.hypercube.specs.Hypercube.{gray, side_of, hypercube_answer};

use questions::is_inside;
use refusals::Refusal;

// The reflected Gray code.
fn gray(r: u32) -> u32
    ensures { result ≡ gray r }
{
    r ^ (r / 2)
}

// 2 to the power e where p is 4 to the power e, with e from 0 to 6.
fn side_of(p: u32) -> Option<u32>
    ensures { result ≡ side_of p }
{
    let mut power: u32 = 1;
    let mut side: u32 = 1;
    // Counts the powers: no list is read.
    for e in 0..7usize {
        if power == p {
            return Some(side);
        }
        power = power * 4;
        side = side * 2;
    }
    None
}

// The owner of the position i1 i2 i3: the code of i2 + i3 in the upper bits and that of i1 + i3 in the lower.
fn owner_number(side: u32, i1: u32, i2: u32, i3: u32) -> u32
    requires { (i1 < side) × (i2 < side) × (i3 < side) × (side ≤ 64) }
    ensures { result ≡ gray ((i2 + i3) % side) * side + gray ((i1 + i3) % side) }
{
    let upper = gray((i2 + i3) % side);
    let lower = gray((i1 + i3) % side);
    upper * side + lower
}

// Who owns a position of the hypercube layout of p processors.
pub fn hypercube_owner(p: u32, position: &[u32]) -> Result<u32, Refusal>
    ensures { told result ≡ hypercube_answer p position.now }
{
    if !(1..=4096).contains(&p) {
        return Err(Refusal::Processors);
    }
    let side = side_of(p).ok_or(Refusal::Unsuited)?;
    if !is_inside(&[side; 3], position) {
        return Err(Refusal::Range);
    }
    Ok(owner_number(side, position[0], position[1], position[2]))
}
