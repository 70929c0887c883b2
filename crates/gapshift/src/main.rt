// Carries out a list of calls over a plan's slot rack, and writes the answers.
//
// gapshift PLAN reads a plan from the file PLAN and calls from standard input, one a line, and writes one answer a line.
#![tactic(auto)]

mod answers;
mod calls;

use answers::AnswerLine;
use anyhow::anyhow;
use calls::ReadError;
use dispatch::run_shift;
use input::{Front, fill_front};
use plan::Plan;
use rack::SlotRack;
use schedule::Answer;
use std::io::{BufWriter, Read, Write};
use std::{env, fs};

// The rest of the program, once the plan has passed: reads the calls, carries them out, and writes their answers.
fn shift(rt: &HostRuntime, plan: &Plan) -> anyhow::Result<()> {
    let heap = rt.alloc();
    let mut text = Vec::new(heap);
    rt.stdin().read_to_end(&mut text)?;
    let calls = match calls::read(heap, text.as_slice()) {
        Ok(calls) => calls,
        Err(ReadError::Line(line)) => {
            println!(rt; "fault,{line}")?;
            return Ok(());
        }
        Err(ReadError::Memory(error)) => return Err(error.into()),
    };
    let mut answers = vec![in heap; Answer::Passed; calls.len()]?;
    let rack = SlotRack::new(plan);
    let _count = run_shift(rack, calls.as_slice(), answers.as_mut_slice());
    let mut out = BufWriter::new(heap, rt.stdout())?;
    for answer in &answers {
        writeln!(out, "{}", AnswerLine(*answer))?;
    }
    out.flush()?;
    Ok(())
}

fn run(rt: &HostRuntime) -> anyhow::Result<()> {
    let mut args = env::args(rt)?.skip(1);
    let (Some(path), None) = (args.next(), args.next()) else {
        return Err(anyhow!("usage: gapshift PLAN < CALLS"));
    };
    let mut front = Front::new();
    fill_front(&mut fs::open(rt, path)?, &mut front)?;
    let mut plan = Plan::idle();
    if let Err(fault) = plan.read(front.bytes()) {
        let cause = fault.cause.number();
        let line = fault.line;
        let field = fault.field;
        println!(rt; "fault,{cause},{line},{field}")?;
        return Ok(());
    }
    shift(rt, &plan)
}

fn main(rt: HostRuntime) -> anyhow::Result<()> {
    run(&rt)
}
