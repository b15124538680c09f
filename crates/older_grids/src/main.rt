// Runs figures of the diagonal layouts and of the hypercube layout on the calls. What it prints is held to the file stdout.
#![tactic(auto)]

use arrayvec::ArrayString;
use layout::Plan;
use planner::Job;
use refusals::Refusal;
use std::fmt::Write;
use std::{fmt, io};

// One line, which each of the two programs has.
fn print_refused(out: &mut impl Write, refusal: Refusal) -> fmt::Result {
    writeln!(out, "refused {} {}", refusal.number(), refusal.place())
}

// A job without a list of least thicknesses.
fn job<'a>(p: u32, d: usize, extents: &'a [u32], weights: &'a [u32]) -> Job<'a> {
    Job {
        p,
        d,
        extents,
        weights,
        least: &[],
    }
}

// The printed form of a plan that needs no more than 256 bytes.
fn print_plan(out: &mut impl Write, plan: Plan) -> fmt::Result {
    let mut text = [0; 256];
    match plan_text::print_plan(plan, &mut text) {
        Ok(bytes) => {
            let text = str::from_utf8(&text[..bytes.min(256)]).map_err(|_| fmt::Error)?;
            out.write_str(text)
        }
        Err(refusal) => print_refused(out, refusal),
    }
}

// The diagonal plan of a job, printed, or a refusal.
fn print_job(out: &mut impl Write, job: Job) -> fmt::Result {
    match diagonal::diagonal_job(job) {
        Ok(plan) => print_plan(out, plan),
        Err(refusal) => print_refused(out, refusal),
    }
}

// The owners of a row of four tiles along dimension 2.
fn print_row(out: &mut impl Write, plan: Plan, i1: u32, i3: u32) -> fmt::Result {
    write!(out, "owners")?;
    for i2 in 0..4 {
        match questions::owner_of(plan, &[i1, i2, i3]) {
            Ok(processor) => write!(out, " {processor}")?,
            Err(refusal) => return print_refused(out, refusal),
        }
    }
    writeln!(out)
}

// 16 processors, the layout of the first figure of source document 001: the planes i3 = 0 and i3 = 1, of four by four tiles; with
// least thicknesses of 1, given.
fn print_first_figure(out: &mut impl Write) -> fmt::Result {
    let ones = [1; 3];
    match diagonal::diagonal_job(Job {
        least: &ones,
        ..job(16, 3, &[4, 4, 4], &ones)
    }) {
        Ok(plan) => {
            for i3 in 0..2 {
                for i1 in 0..4 {
                    print_row(out, plan, i1, i3)?;
                }
            }
            Ok(())
        }
        Err(refusal) => print_refused(out, refusal),
    }
}

// Plans of the diagonal layout, and jobs that have none.
fn print_jobs(out: &mut impl Write) -> fmt::Result {
    for (p, d, extents, weights) in [
        // 3 processors on 9 9, 1 on 1 1, 4 on 8 8 8 and 9 on 9 9 9 with weights 1 2 3
        (3, 2, &[9, 9][..], &[1, 1][..]),
        (1, 2, &[1, 1], &[1, 1]),
        (4, 3, &[8, 8, 8], &[1, 1, 1]),
        (9, 3, &[9, 9, 9], &[1, 2, 3]),
        // 12: 6 processors and 5, with two extents, in three dimensions, and 8 in four; 2: 4,097 in two
        (6, 3, &[9, 9, 9], &[1, 1, 1]),
        (5, 3, &[9, 9], &[1, 1]),
        (8, 4, &[9, 9, 9, 9], &[1, 1, 1, 1]),
        (4097, 2, &[9, 9], &[1, 1]),
        // 4 with place 2: 8 processors on 9 0; 5: 4,096 on 64 64 63; 2: none in four dimensions
        (8, 2, &[9, 0], &[1, 1]),
        (4096, 3, &[64, 64, 63], &[1, 1, 1]),
        (0, 4, &[9, 0], &[1, 1, 1]),
    ] {
        print_job(out, job(p, d, extents, weights))?;
    }
    Ok(())
}

// A diagonal plan whose kind is 2, with least thicknesses of 1, given.
fn print_kind(out: &mut impl Write) -> fmt::Result {
    let ones = [1; 2];
    match diagonal::diagonal_job(Job {
        least: &ones,
        ..job(3, 2, &[9, 9], &ones)
    }) {
        Ok(plan) => print_plan(out, Plan { kind: 2, ..plan }),
        Err(refusal) => print_refused(out, refusal),
    }
}

// The owner of a position of the hypercube layout.
fn print_hypercube(out: &mut impl Write, p: u32, position: &[u32]) -> fmt::Result {
    match hypercube::hypercube_owner(p, position) {
        Ok(processor) => writeln!(out, "hypercube {processor}"),
        Err(refusal) => print_refused(out, refusal),
    }
}

// Owners of the hypercube layout, and positions that have none.
fn print_cubes(out: &mut impl Write) -> fmt::Result {
    for (p, position) in [
        // 1, 4, 16, 64 and 4,096 processors
        (1, &[0, 0, 0][..]),
        (4, &[1, 0, 1]),
        (16, &[1, 2, 3]),
        (64, &[5, 6, 7]),
        (16, &[3, 0, 2]),
        (4096, &[63, 63, 63]),
        (4096, &[0, 0, 63]),
        // 12: 8 processors; 8: a coordinate out of range and two coordinates; 2: no processor
        (8, &[4, 0]),
        (16, &[4, 0, 0]),
        (16, &[0, 0]),
        (0, &[4, 0, 0]),
    ] {
        print_hypercube(out, p, position)?;
    }
    Ok(())
}

// All lines.
fn print_all(out: &mut impl Write) -> fmt::Result {
    print_first_figure(out)?;
    print_jobs(out)?;
    print_kind(out)?;
    print_cubes(out)
}

// The lines are written at once. Where that fails, nothing is said.
fn main(rt: HostRuntime) {
    let mut text = ArrayString::<1024>::new();
    if print_all(&mut text).is_ok() {
        let _ = io::Write::write_all(&mut rt.stdout(), text.as_str().as_bytes());
    }
}
