// A slab sheet for the job folder: a page of one dimension's slabs with a caption (document 02, request k).
#![tactic(auto)]

ghost use Rattle.std.specs.Prelude.{◌≡◌, ◌∷◌, ◌++◌, map, ◌+◌, ◌-◌, ◌<◌, ◌≤◌, length, get_or, take, drop};
ghost use Rattle.numerals.specs.Decimal.{decimal};
ghost use Rattle.refusals.specs.Told.{Answers};
ghost use Rattle.layout.specs.Plans.{layout_of};
ghost use Rattle.sheet.specs.Lines.{shown, slab_line};
ghost use Rattle.sheet.specs.Pages.{tiles_each, sheet_line, lines_from, sheet_answer};

use crate::listed::Listed;
use itoa::write_digits;
use layout::{Axis, Plan};
use refusals::Refusal;
use tiles::slabs::Slabs;

mod listed; // listed.rt: the slabs of a dimension as a sheet lists them

// The bytes of a page: 50 lines of 72 columns and a newline.
const PAGE: usize = 3650;

// A caption byte as it shows: a question mark for one outside 32 to 126.
#[tactic(auto, unfolding(crate::specs::Lines::shown))]
fn shown_byte(byte: u8) -> u8
    ensures { result ≡ shown byte }
{
    if 32 <= byte && byte <= 126 {
        byte
    } else {
        b'?'
    }
}

// A number in a line, right-aligned: its last digit stands in column `end`, counted from 1.
fn put_right(line: &mut [u8], end: usize, n: u64)
    requires { (length line.old ≡ 72) × (end ≤ 72) × (length (decimal n) ≤ end) }
    ensures { line.new ≡ take (end - length (decimal n)) line.old ++ decimal n ++ drop end line.old }
{
    write_digits(n, line, end);
}

// The caption in a line, left-aligned from column 35 on, and cut behind column 72.
fn put_caption(line: &mut [u8], caption: &[u8])
    requires { length line.old ≡ 72 }
    ensures { line.new ≡ take 34 line.old ++ map shown (take 38 caption.now) ++ drop (34 + length caption.now) line.old }
{
    let count = caption.len().min(38);
    // By place: of a list that is written through `iter_mut().zip(..)` a proof knows only the length.
    for (i, byte) in caption[..count].iter().enumerate() {
        line[34 + i] = shown_byte(*byte);
    }
}

// The line of a slab, filled field by field.
fn slab_line(slab: u64, first: u64, after: u64, share: u64, caption: &[u8]) -> [u8; 72]
    requires { (slab < 1000000) × (first < 100000000) × (after < 100000000) × (share < 100000000) }
    ensures { result ≡ slab_line slab first after share caption.now }
{
    let mut line = [b' '; 72];
    put_right(&mut line, 6, slab);
    put_right(&mut line, 15, first);
    put_right(&mut line, 24, after);
    put_right(&mut line, 33, share);
    put_caption(&mut line, caption);
    line
}

// Writes a line out at a place of the page, with a newline behind it.
fn put_line(page: &mut [u8], at: usize, line: [u8; 72])
    requires { (length page.old ≡ 3650) × (at + 73 ≤ 3650) }
    ensures { page.new ≡ take at page.old ++ line ++ (10 ∷ drop (at + 73) page.old) }
{
    let end = at + 72;
    page[at..end].copy_from_slice(&line);
    page[end] = b'\n';
}

impl Listed {
    // The slabs along a dimension: the tiles per processor are those of the plan by its processors and slabs, rounded down.
    fn along(axis: Axis) -> Listed
        ensures { (result.slabs.extent ≡ get_or axis.shaped.plan.extents axis.k 0) × (result.slabs.cut ≡ get_or axis.shaped.plan.cuts axis.k 0) × (result.share ≡ tiles_each (layout_of axis.shaped.plan) (axis.k + 1)) }
    {
        let slabs = Slabs::along(axis);
        let owners = u64::from(slabs.cut * axis.shaped.plan.p);
        let tiles = axis.shaped.tile_count() as u64;
        Listed {
            slabs,
            share: tiles / owners,
        }
    }

    // Line s: blank behind the last slab.
    fn line(self, caption: &[u8], s: u32) -> [u8; 72]
        ensures { result ≡ sheet_line self.slabs.extent self.slabs.cut self.share caption.now s }
    {
        if self.slabs.cut <= s {
            return [b' '; 72];
        }
        let elements = self.slabs.elements(s);
        slab_line(
            u64::from(s),
            u64::from(elements.start),
            u64::from(elements.end),
            self.share,
            caption,
        )
    }

    // Writes out line s at a place of the page.
    fn put_row(self, caption: &[u8], s: u32, page: &mut [u8], at: usize)
        requires { (length page.old ≡ 3650) × (at + 73 ≤ 3650) }
        ensures { page.new ≡ take at page.old ++ sheet_line self.slabs.extent self.slabs.cut self.share caption.now s ++ (10 ∷ drop (at + 73) page.old) }
    {
        put_line(page, at, self.line(caption, s));
    }

    // Writes out 50 lines, from line s on.
    fn put_page(self, caption: &[u8], s: u32, page: &mut [u8])
        requires { (s ≤ 4096) × (length page.old ≡ 3650) }
        ensures { page.new ≡ lines_from (sheet_line self.slabs.extent self.slabs.cut self.share caption.now) s 50 }
    {
        // The number of a line: no list is read here.
        for i in 0..50u32 {
            self.put_row(caption, s + i, page, i as usize * 73);
        }
    }
}

// One page, counted from 0, of the slabs of a dimension, written into a lent list of as many bytes as a page has. All checks come before the first
// write.
pub fn slab_sheet(
    plan: Plan,
    dimension: usize,
    page: u32,
    caption: &[u8],
    sheet: &mut [u8],
) -> Result<(), Refusal>
    ensures { Answers (sheet_answer (layout_of plan) dimension page caption.now (length sheet.old)) result sheet.old sheet.new }
{
    let listed = Listed::along(plan.along(dimension)?);
    if (listed.slabs.cut - 1) / 50 < page {
        return Err(Refusal::Range);
    }
    if sheet.len() != PAGE {
        return Err(Refusal::Room);
    }
    listed.put_page(caption, page * 50, sheet);
    Ok(())
}
