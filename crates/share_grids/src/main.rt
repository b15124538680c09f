// Runs the figures of the smallest share of the machine that is refused too (document 02, request j) on the call. What it prints is held to the file
// stdout.
#![tactic(auto)]

use arrayvec::ArrayString;
use planner::Job;
use std::fmt::Write;
use std::{fmt, io};

// The smallest share of a job's processors that is refused with 5, nothing to show, or a refusal.
fn print_share(out: &mut impl Write, p: u32, extents: &[u32], least: &[u32]) -> fmt::Result {
    let ones = [1; 4];
    let job = Job {
        p,
        d: extents.len(),
        extents,
        weights: &ones[..extents.len().min(4)],
        least,
    };
    match refused_share::smallest_refused(job) {
        Ok(Some(divisor)) => writeln!(out, "smallest {divisor}"),
        Ok(None) => writeln!(out, "nothing"),
        Err(refusal) => writeln!(out, "refused {} {}", refusal.number(), refusal.place()),
    }
}

// All lines.
fn print_all(out: &mut impl Write) -> fmt::Result {
    for (p, extents, least) in [
        // 12 processors on 5 5, 9 9 and 12 12, and 4,096 on 4096 4095
        (12, &[5, 5][..], &[1, 1][..]),
        (12, &[9, 9], &[1, 1]),
        (12, &[12, 12], &[1, 1]),
        (4096, &[4096, 4095], &[1, 1]),
        // 30 on 5 5 5, 60 on 6 6 6, 3,360 on 20 20 20 and 4,095 on 63 64 65
        (30, &[5, 5, 5], &[1, 1, 1]),
        (60, &[6, 6, 6], &[1, 1, 1]),
        (3360, &[20, 20, 20], &[1, 1, 1]),
        (4095, &[63, 64, 65], &[1, 1, 1]),
        // with least thicknesses: 2 on 3 3 with 4 1, and 2,520 on 50 50 50 50 with 3 each
        (2, &[3, 3], &[4, 1]),
        (2520, &[50, 50, 50, 50], &[3, 3, 3, 3]),
        // 4 with place 2: 12 on 5 0
        (12, &[5, 0], &[]),
    ] {
        print_share(out, p, extents, least)?;
    }
    Ok(())
}

// The lines are written at once. Where that fails, nothing is said.
fn main(rt: HostRuntime) {
    let mut text = ArrayString::<256>::new();
    if print_all(&mut text).is_ok() {
        let _ = io::Write::write_all(&mut rt.stdout(), text.as_str().as_bytes());
    }
}
