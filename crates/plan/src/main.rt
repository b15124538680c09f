// The program: reads a job line from standard input and prints its plan, or a refusal, to standard output. Of a job refused with 5 it tells the
// smallest divisor of p that is refused so, on standard error.
#![tactic(auto)]

ghost use Rattle.std.specs.Prelude.{◌≡◌, ◌+◌, ◌≤◌, IfOk, length, take};
ghost use Rattle.refusals.specs.Told.{told_by, maybe, number_of, place_of};
ghost use Rattle.numerals.specs.Output.{Written};
ghost use Rattle.planner.specs.Asked.{asked};
ghost use Rattle.plan_text.specs.PlanText.{refused_text};
ghost use Rattle.plan_text.specs.Told.{text_answer, Hands};
ghost use Rattle.plan.specs.ShareText.{share_text};
ghost use Rattle.plan.specs.Prints.{job_of_line, Answers, Runs};
ghost use Rattle.plan.specs.Printed.{planned_answer};

use layout::Plan;
use numerals::Output;
use planner::Job;
use refusals::Refusal;
use std::io;
use std::io::{Read, Write};

// How many bytes the program reads at most, and how many it can print.
const READ: usize = 256;

const ROOM: usize = plan_text::LONGEST_PLAN;

// The words before the divisor, and how many bytes the program can tell: the words, four digits and a newline.
const NO_CUTS: [u8; 135] =
    *b"plan: no cuts that fit this grid give every processor equally many tiles in every slab; the smallest divisor of p for which none do is ";

const TOLD: usize = 140;

// What was written into the two lists: the answer of the printing call, and how many bytes are told.
#[derive(Clone, Copy)]
struct Texts {
    printed: Result<usize, Refusal>,
    told: usize,
}

// How many bytes are to be written to standard output, and to standard error.
#[derive(Clone, Copy)]
struct Counts {
    printed: usize,
    told: usize,
}

// The job of p, d and the numbers after d.
fn job_of(p: u32, d: usize, numbers: &[u32]) -> Job<'_>
    ensures { asked result ≡ job_of_line p d numbers.now }
{
    let (extents, others) = numbers.split_at(d.min(numbers.len()));
    let (weights, least) = others.split_at(d.min(others.len()));
    Job {
        p,
        d,
        extents,
        weights,
        least,
    }
}

// A refusal, printed.
fn print_refusal(refusal: Refusal, out: &mut [u8]) -> Result<usize, Refusal>
    ensures { Hands (text_answer (refused_text (number_of refusal) (place_of refusal)) (length out.old)) result out.old out.new }
{
    plan_text::print_refused(u64::from(refusal.number()), refusal.place() as u64, out)
}

// What the planner answered, printed.
fn print_planned(planned: Result<Plan, Refusal>, out: &mut [u8]) -> Result<usize, Refusal>
    ensures { Hands (planned_answer planned (length out.old)) result out.old out.new }
{
    match planned {
        Ok(plan) => plan_text::print_plan(plan, out),
        Err(refusal) => print_refusal(refusal, out),
    }
}

// The line with the divisor. Where there is nothing to show, and of another refusal, nothing is written.
fn put_share(out: &mut [u8], share: Result<Option<u32>, Refusal>) -> usize
    ensures { Written out.old 0 (share_text (told_by maybe share)) out.new result }
{
    let Ok(Some(divisor)) = share else {
        return 0;
    };
    let mut text = Output::new(out);
    text.bytes(&NO_CUTS);
    text.numbers(&[divisor]);
    text.at
}

// What is written for the input.
fn answer(input: &[u8], out: &mut [u8], err: &mut [u8]) -> Texts
    ensures { Answers input.now result out.old out.new err.old err.new }
{
    let read = job_text::read_job(input);
    let Ok(numbers) = read else {
        let refusal = read.unwrap_err();
        let printed = print_refusal(refusal, out);
        return Texts { printed, told: 0 };
    };
    let job = job_of(numbers[0], numbers[1] as usize, &numbers[2..]);
    let planned = planner::plan_job(job);
    let share = refused_share::smallest_refused(job);
    let printed = print_planned(planned, out);
    let told = put_share(err, share);
    Texts { printed, told }
}

// The program between its three lists: the first n bytes of `input` were read, and it answers how many bytes of `out` and of `err` are to be
// written. It takes the whole list, since its places are part of the promise: READ bytes settle what is written for the whole input. ROOM and
// TOLD places hold it, so that nothing is refused (proofs/Room).
fn run(input: [u8; READ], n: usize, out: &mut [u8; ROOM], err: &mut [u8; TOLD]) -> Counts
    ensures { Runs (length input) (take n input) out.old out.new err.old err.new result }
{
    let read = n.min(READ);
    let texts = answer(&input[..read], out, err);
    let count = texts.printed.unwrap();
    Counts {
        printed: count,
        told: texts.told,
    }
}

// Reads until the list is full, the input ends or a read fails, and answers how many bytes were read.
fn read_input(reader: &mut impl Read, input: &mut [u8]) -> io::Result<usize>
    ensures { IfOk result (λ n. n ≤ length input.old) }
{
    // No `for`: a read fills any part of what is left.
    let mut done = 0;
    while done < input.len() {
        let more = reader.read(&mut input[done..])?;
        if more == 0 {
            break;
        }
        done += more;
    }
    Ok(done)
}

// The exit status is 0 in any case: where a read or a write fails, as to a reader that has left, the program says so on standard error, and where a
// read fails it prints nothing. What is told comes after the answer.
fn main(rt: HostRuntime) {
    let mut input = [0u8; READ];
    let Ok(n) = read_input(&mut rt.stdin(), &mut input) else {
        let _ = rt
            .stderr()
            .write_all(b"plan: the input could not be read\n");
        return;
    };
    let mut out = [0u8; ROOM];
    let mut err = [0u8; TOLD];
    let counts = run(input, n, &mut out, &mut err);
    let m = counts.printed;
    let t = counts.told;
    if rt.stdout().write_all(&out[..m]).is_err() {
        let _ = rt
            .stderr()
            .write_all(b"plan: the output could not be written in full\n");
    }
    let _ = rt.stderr().write_all(&err[..t]);
}
