// The numbers of a line before its newline.
ghost use Rattle.std.specs.Prelude.{◌<◌};
ghost use Rattle.arrayvec.specs.ArrayVec.{array_vec_len};
ghost use Rattle.job_text.specs.Readable.{most_numbers};

use crate::Numbers;

// The numbers that are read whole: there is room for one more.
#[derive(Drop)]
pub(crate) struct Unfinished {
    pub(crate) numbers: Numbers,
    ghost room: { array_vec_len numbers < most_numbers },
}
