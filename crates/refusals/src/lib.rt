// Why a call turns back: the table of document 01, "Where each call turns back", with the lines of document 02, as an enum.
#![tactic(auto)]

ghost use Rattle.std.specs.Prelude.{◌≡◌};
ghost use Rattle.refusals.specs.Told.{number_of, place_of};

// A refusal, its place beside it where the table names one: a dimension, a number or a byte, counted from 1.
#[derive(Clone, Copy, Debug, PartialEq, Eq)]
pub enum Refusal {
    // 1: d is not 2 to 5
    Dimensions,
    // 2: p is not 1 to 4,096
    Processors,
    // 3: extents, weights or least thicknesses are not d many
    Lengths,
    // 4: the extent of this dimension, the first such, is out of range
    Extent(u32),
    // 5: no even, fitting cuts
    NoCuts,
    // 6: the plan is out of shape
    Shape,
    // 7: the dimension is not 1 to d
    Dimension,
    // 8: a slab, element, tile, coordinate, processor, step or page is out of range
    Range,
    // 9: a lent list has another length than stated
    Room,
    // 10: the text is no job line: its first byte at this place
    Text(usize),
    // 11: a message of the sweep could be longer than 32 bits say
    Sweep,
    // 12: p or d does not suit the layout
    Unsuited,
    // 13: the least thickness of this dimension, the first such, is 0
    Thickness(u32),
    // 14: the element at this place, the first such, is smaller than the one before
    Falls(usize),
}

impl Refusal {
    // Its number in the table.
    pub fn number(self) -> u32
        ensures { result ≡ number_of self }
    {
        match self {
            Refusal::Dimensions => 1,
            Refusal::Processors => 2,
            Refusal::Lengths => 3,
            Refusal::Extent(_) => 4,
            Refusal::NoCuts => 5,
            Refusal::Shape => 6,
            Refusal::Dimension => 7,
            Refusal::Range => 8,
            Refusal::Room => 9,
            Refusal::Text(_) => 10,
            Refusal::Sweep => 11,
            Refusal::Unsuited => 12,
            Refusal::Thickness(_) => 13,
            Refusal::Falls(_) => 14,
        }
    }

    // Its place: 0 unless the table names one.
    pub fn place(self) -> usize
        ensures { result ≡ place_of self }
    {
        match self {
            Refusal::Extent(dimension) => dimension as usize,
            Refusal::Thickness(dimension) => dimension as usize,
            Refusal::Text(place) => place,
            Refusal::Falls(place) => place,
            _ => 0,
        }
    }
}
