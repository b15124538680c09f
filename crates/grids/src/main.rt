// Runs the grids of document 01 that are not starred, the examples beside its table, the slabs of document 02's request d, jobs of its requests f and g, tile numbers of its request i, probe lines, and figures of the timetable, on the calls. What it prints is held to the file stdout.
#![tactic(auto)]

use arrayvec::ArrayString;
use layout::Plan;
use planner::Job;
use questions::Neighbour;
use refusals::Refusal;
use std::fmt::Write;
use std::{fmt, io};
use tiles::positions::Position;
use timetable::Message;

// A word and numbers.
fn print_line(out: &mut impl Write, word: &str, numbers: &[u32]) -> fmt::Result {
    write!(out, "{word}")?;
    for number in numbers {
        write!(out, " {number}")?;
    }
    writeln!(out)
}

// One line, which each of the two programs has.
fn print_refused(out: &mut impl Write, refusal: Refusal) -> fmt::Result {
    writeln!(out, "refused {} {}", refusal.number(), refusal.place())
}

// A job of as many dimensions as it has extents, without a list of least thicknesses.
fn job<'a>(p: u32, extents: &'a [u32], weights: &'a [u32]) -> Job<'a> {
    Job {
        p,
        d: extents.len(),
        extents,
        weights,
        least: &[],
    }
}

// The plan of a job. Where there is none, it is a plan of zeros, about which every question is refused.
fn plan_of(job: Job) -> Plan {
    planner::plan_job(job).unwrap_or(layout::no_plan())
}

// The plan of a job with weights of 1 and a list of least thicknesses of 1.
fn plan(p: u32, extents: &[u32], ones: &[u32]) -> Plan {
    plan_of(Job {
        least: ones,
        ..job(p, extents, ones)
    })
}

// The planner's answer to a job: a refusal, or the cuts and the moduli, in five places each.
fn print_job(out: &mut impl Write, job: Job) -> fmt::Result {
    match planner::plan_job(job) {
        Ok(plan) => {
            print_line(out, "cuts", &plan.cuts)?;
            print_line(out, "mod", &plan.moduli)
        }
        Err(refusal) => print_refused(out, refusal),
    }
}

// The position of a tile, in five places.
fn print_position(out: &mut impl Write, plan: Plan, tile: u32) -> fmt::Result {
    match tiles::positions::position_of(plan, tile) {
        Ok(position) => print_line(out, "position", &position.at),
        Err(refusal) => print_refused(out, refusal),
    }
}

// The number of the tile at a position.
fn print_number(out: &mut impl Write, plan: Plan, position: Position) -> fmt::Result {
    match position.number(plan) {
        Ok(tile) => writeln!(out, "tile {tile}"),
        Err(refusal) => print_refused(out, refusal),
    }
}

fn print_slab(out: &mut impl Write, plan: Plan, dimension: usize, slab: u32) -> fmt::Result {
    match tiles::slabs::slab_elements(plan, dimension, slab) {
        Ok(elements) => writeln!(out, "elements {} {}", elements.start, elements.end),
        Err(refusal) => print_refused(out, refusal),
    }
}

fn print_slab_of(out: &mut impl Write, plan: Plan, dimension: usize, element: u32) -> fmt::Result {
    match tiles::slabs::slab_of(plan, dimension, element) {
        Ok(slab) => writeln!(out, "slab {slab}"),
        Err(refusal) => print_refused(out, refusal),
    }
}

// The slabs of a probe line along dimension 1, in a list of nine 9s.
fn print_probes(out: &mut impl Write, plan: Plan, elements: &[u32]) -> fmt::Result {
    let mut slabs = [9; 9];
    match probes::slabs_of(plan, 1, elements, &mut slabs) {
        Ok(()) => print_line(out, "slabs", &slabs),
        Err(refusal) => print_refused(out, refusal),
    }
}

fn print_owner(out: &mut impl Write, plan: Plan, position: &[u32]) -> fmt::Result {
    match questions::owner_of(plan, position) {
        Ok(processor) => writeln!(out, "owner {processor}"),
        Err(refusal) => print_refused(out, refusal),
    }
}

fn print_neighbour(
    out: &mut impl Write,
    plan: Plan,
    processor: u32,
    dimension: usize,
    up: bool,
) -> fmt::Result {
    match questions::neighbour_of(plan, processor, dimension, up) {
        Neighbour::Processor(other) => writeln!(out, "neighbour {other}"),
        Neighbour::Nobody => writeln!(out, "neighbour none"),
        Neighbour::Refused { number, place } => writeln!(out, "refused {number} {place}"),
    }
}

fn print_message(out: &mut impl Write, word: &str, message: Option<Message>) -> fmt::Result {
    match message {
        Some(message) => writeln!(out, "{word} {} {}", message.processor, message.length),
        None => writeln!(out, "{word} none"),
    }
}

// The slab and the tiles of a visit, then what is sent and what is expected.
fn print_visit(
    out: &mut impl Write,
    plan: Plan,
    dimension: usize,
    up: bool,
    step: u32,
    processor: u32,
) -> fmt::Result {
    match timetable::visit_at(plan, dimension, up, step, processor) {
        Ok(visit) => {
            writeln!(out, "visit {} {}", visit.slab, visit.tiles)?;
            print_message(out, "sends", visit.sends)?;
            print_message(out, "expects", visit.expects)
        }
        Err(refusal) => print_refused(out, refusal),
    }
}

// 4,096 processors on 4,096 by 4,096, with the last tile and the one after it, and on 4,096 by 4,095.
fn print_squares(out: &mut impl Write) -> fmt::Result {
    let square = plan(4096, &[4096, 4096], &[1, 1]);
    print_job(out, job(4096, &[4096, 4096], &[1, 1]))?;
    for tile in [16777216, 16777217] {
        print_position(out, square, tile)?;
    }
    print_job(out, job(4096, &[4096, 4095], &[1, 1]))
}

// 6 processors on 9 9 9, cut 2 3 6: the tiles at 1 2 3 and at 0 0 5, which were 34 and 6 while the last dimension ran fastest, and the positions of 24 and of 31.
fn print_tiles(out: &mut impl Write) -> fmt::Result {
    let plan = plan(6, &[9, 9, 9], &[1, 1, 1]);
    for at in [[1, 2, 3, 0, 0], [0, 0, 5, 0, 0]] {
        print_number(out, plan, Position { d: 3, at })?;
    }
    for tile in [24, 31] {
        print_position(out, plan, tile)?;
    }
    Ok(())
}

// Six dimensions, no processor and one too many; then a weight too many, and an extent out of range.
fn print_outside(out: &mut impl Write) -> fmt::Result {
    for (p, extents, weights) in [
        (1, &[6; 6][..], &[1; 6][..]),
        (0, &[6, 6], &[1, 1]),
        (4097, &[6, 6], &[1, 1]),
        (1, &[1, 1000001], &[1, 1, 1]),
        (1, &[1, 1000001], &[1, 1]),
    ] {
        print_job(out, job(p, extents, weights))?;
    }
    Ok(())
}

// Ten elements in four slabs: the slabs and the one after them, and the slabs of elements 5, 6 and 10.
fn print_slabs(out: &mut impl Write) -> fmt::Result {
    let plan = plan(4, &[10, 10], &[1, 1]);
    for slab in 0..5 {
        print_slab(out, plan, 1, slab)?;
    }
    for (dimension, element) in [(1, 5), (1, 6), (2, 10)] {
        print_slab_of(out, plan, dimension, element)?;
    }
    Ok(())
}

// The chains of a plan in two lists, the second of so many places of an array of nine.
fn print_chains(out: &mut impl Write, plan: Plan, places: usize) -> fmt::Result {
    let mut heads = [7; 4];
    let mut nexts = [7; 9];
    let nexts = &mut nexts[..places.min(9)];
    match chains::chains(plan, &mut heads, nexts) {
        Ok(()) => {
            print_line(out, "heads", &heads)?;
            print_line(out, "nexts", nexts)
        }
        Err(refusal) => print_refused(out, refusal),
    }
}

// Questions about the plan for 4 processors on 8 8 8: owners of a position, of one outside and of one of another length; neighbours, with questions that
// are refused for no such dimension, no such processor, or neither; a plan whose processors are not the product of its moduli; the chains, also
// with a place too many in the second list.
fn print_questions(out: &mut impl Write) -> fmt::Result {
    let plan = plan(4, &[8, 8, 8], &[1, 1, 1]);
    for position in [&[1, 0, 1][..], &[1, 2, 1], &[1, 0]] {
        print_owner(out, plan, position)?;
    }
    for (processor, dimension, up) in [(0, 1, true), (0, 0, true), (4, 1, true), (4, 4, false)] {
        print_neighbour(out, plan, processor, dimension, up)?;
    }
    print_neighbour(out, Plan { p: 5, ..plan }, 0, 1, true)?;
    print_chains(out, plan, 8)?;
    print_chains(out, plan, 9)
}

// The plan for 6 processors on 1 9 9, whose first dimension is uncut.
fn print_uncut(out: &mut impl Write) -> fmt::Result {
    let plan = plan(6, &[1, 9, 9], &[1, 1, 1]);
    print_neighbour(out, plan, 3, 1, true)?;
    print_neighbour(out, plan, 3, 2, false)
}

// A step along a dimension, for processors 0 to 3, with weights of 1.
fn print_step(
    out: &mut impl Write,
    p: u32,
    extents: &[u32],
    dimension: usize,
    up: bool,
    step: u32,
) -> fmt::Result {
    let ones = [1; 3];
    let plan = plan_of(job(p, extents, &ones[..extents.len().min(3)]));
    for processor in 0..4 {
        print_visit(out, plan, dimension, up, step, processor)?;
    }
    Ok(())
}

// Steps of sweeps.
fn print_steps(out: &mut impl Write) -> fmt::Result {
    for (p, extents, dimension, up, step) in [
        // 4 processors on 8 8 8: both steps up dimension 1, a step down it, and the step after the last
        (4, &[8, 8, 8][..], 1, true, 0),
        (4, &[8, 8, 8], 1, true, 1),
        (4, &[8, 8, 8], 1, false, 0),
        (4, &[8, 8, 8], 1, true, 2),
        // tiles of unlike thickness: 6 processors on 9 9 9, and 4 on 5 7 9
        (6, &[9, 9, 9], 2, true, 0),
        (6, &[9, 9, 9], 2, true, 1),
        (4, &[5, 7, 9], 3, true, 0),
        (4, &[5, 7, 9], 1, true, 0),
        // the first two steps down dimension 2 of 6 processors on 9 9 9, and up dimension 1 of 4 on 10 10
        (6, &[9, 9, 9], 2, false, 0),
        (6, &[9, 9, 9], 2, false, 1),
        (4, &[10, 10], 1, true, 0),
        (4, &[10, 10], 1, true, 1),
        // 2 processors on m n 2, along dimension 3, where the product of the other extents is at the limit of 32 bits: processors 2 and 3 are not there
        (2, &[65536, 65536, 2], 3, true, 0),
        (2, &[65535, 65537, 2], 3, true, 0),
        (2, &[1000000, 4295, 2], 3, true, 0),
        (2, &[1000000, 4294, 2], 3, true, 0),
    ] {
        print_step(out, p, extents, dimension, up, step)?;
    }
    Ok(())
}

// A plan made by hand, of 3 by 2 tiles on 6 processors, in which processor 1 has no tile in the first slab.
fn print_uneven(out: &mut impl Write) -> fmt::Result {
    let mut plan = Plan {
        d: 2,
        p: 6,
        extents: [9, 9, 0, 0, 0],
        cuts: [3, 2, 0, 0, 0],
        moduli: [1, 6, 0, 0, 0],
        least: [1, 1, 0, 0, 0],
        ..layout::no_plan()
    };
    plan.matrix[5] = 2;
    plan.matrix[6] = 3;
    print_visit(out, plan, 1, true, 0, 1)
}

// Jobs with all weights 0 on a roomy grid: all cuts cost the same, and those with the fewest tiles are chosen.
fn print_ties(out: &mut impl Write) -> fmt::Result {
    for (p, d) in [(4, 3), (12, 3), (8, 4), (3360, 5)] {
        print_job(out, job(p, &[1000000; 5][..d], &[0; 5][..d]))?;
    }
    Ok(())
}

// Jobs on 40 40 40 whose least thicknesses move the cuts or leave none, one of them as large as a number can be.
fn print_thick(out: &mut impl Write) -> fmt::Result {
    for (p, least) in [
        (36, [6, 6, 6]),
        (36, [7, 6, 6]),
        (36, [20, 2, 2]),
        (1, [4294967295, 1, 1]),
    ] {
        print_job(
            out,
            Job {
                least: &least,
                ..job(p, &[40; 3], &[1; 3])
            },
        )?;
    }
    Ok(())
}

// Ten elements in 4 slabs: a line that rises, the empty one, and one that is longer than the second list; lines that fall, at places 2 and 4, and one with
// an element out of range.
fn print_probe_lines(out: &mut impl Write) -> fmt::Result {
    let plan = plan(4, &[10, 10], &[1, 1]);
    for line in [
        &[0, 2, 3, 5, 5, 6, 9][..],
        &[],
        &[0, 2, 3, 5, 5, 6, 9, 9, 9, 9],
        &[5, 3, 2],
        &[1, 2, 2, 1, 0],
        &[5, 10, 3],
    ] {
        print_probes(out, plan, line)?;
    }
    Ok(())
}

// All lines.
fn print_all(out: &mut impl Write) -> fmt::Result {
    print_squares(out)?;
    print_tiles(out)?;
    print_outside(out)?;
    print_slabs(out)?;
    print_questions(out)?;
    print_uncut(out)?;
    print_steps(out)?;
    print_uneven(out)?;
    print_ties(out)?;
    print_thick(out)?;
    print_probe_lines(out)
}

// The lines are written at once. Where that fails, nothing is said.
fn main(rt: HostRuntime) {
    let mut text = ArrayString::<4096>::new();
    if print_all(&mut text).is_ok() {
        let _ = io::Write::write_all(&mut rt.stdout(), text.as_str().as_bytes());
    }
}
