// Calls as they are written, one a line.
use schedule::Call;
use std::alloc::{AllocError, Global};

// The most calls that one shift may have.
const MAX_CALLS: usize = 4_000_000;

// Why the calls of a text are not carried out.
#[derive(Debug, Drop)]
pub(crate) enum ReadError {
    // a line cannot be read, or makes too many calls
    Line(u64),
    Memory(AllocError),
}

impl From<AllocError> for ReadError {
    fn from(error: AllocError) -> ReadError {
        ReadError::Memory(error)
    }
}

// A line of calls: the call, and how many times it is made.
#[derive(Clone, Copy)]
struct Step {
    call: Call,
    times: u32,
}

fn once(call: Call) -> Option<Step> {
    Some(Step { call, times: 1 })
}

// Two fields, each a number of 32 bits.
fn two_numbers(s: &[u8]) -> Option<(u32, u32)> {
    let (first, second) = text::cut(s, b',')?;
    Some((text::decimal32(first)?, text::decimal32(second)?))
}

// The fields behind `admit,`.
fn admission(s: &[u8]) -> Option<Step> {
    let (id, rest) = text::cut(s, b',')?;
    let (run, rest) = text::cut(rest, b',')?;
    let (period, deadline) = two_numbers(rest)?;
    let id = text::decimal32(id)?;
    let run = text::decimal32(run)?;
    once(Call::Admit {
        id,
        run,
        period,
        deadline,
    })
}

// The fields behind `release,`.
fn release(s: &[u8]) -> Option<Step> {
    let (id, run) = two_numbers(s)?;
    once(Call::Release { id, run })
}

// The count behind `tick,`: from 1 to 65,535.
fn ticks(s: &[u8]) -> Option<Step> {
    let times = text::decimal(s)?;
    if times == 0 {
        return None;
    }
    Some(Step {
        call: Call::Tick,
        times,
    })
}

// What a line of calls says; none, where it cannot be read. No `TryFrom`: the error would say nothing.
fn parse(line: &[u8]) -> Option<Step> {
    let Some((word, rest)) = text::cut(line, b',') else {
        return match line {
            b"tick" => once(Call::Tick),
            _ => None,
        };
    };
    match word {
        b"admit" => admission(rest),
        b"level" => once(Call::Level {
            id: text::decimal32(rest)?,
        }),
        b"withdraw" => once(Call::Withdraw {
            id: text::decimal32(rest)?,
        }),
        b"release" => release(rest),
        b"tick" => ticks(rest),
        _ => None,
    }
}

// The calls of a text, each as often as it is made, or the first line that cannot be read. The last line may lack its byte 10.
pub(crate) fn read(heap: Global, text: &[u8]) -> Result<Vec<Call>, ReadError> {
    let mut calls = Vec::new(heap);
    for (number, line) in (1u64..).zip(text.split_inclusive(|b| *b == b'\n')) {
        let step = parse(line.strip_suffix(b"\n").unwrap_or(line)).ok_or(ReadError::Line(number))?;
        let count = calls.len().saturating_add(step.times as usize);
        if count > MAX_CALLS {
            return Err(ReadError::Line(number));
        }
        calls.resize(count, step.call)?;
    }
    Ok(calls)
}
