//! The program: reads a problem in the form of DIMACS on standard input, and writes the least cost of a circulation.
#![tactic(auto)]

use std::process::ExitCode;
use std::str;
use thiserror::Error;
use tn_base::OutOfMemory;
use tn_dimacs::{Answer, Fault, least_cost, read};
use tn_io::{ReadStop, StdSource, read_all};

/// A text has at most so many bytes.
const TEXT_LIMIT: usize = 67_108_864;

/// Why no cost is written.
#[derive(Clone, Copy, Error, Debug, Drop)]
enum Stop {
    #[error("reading failed")]
    Failed,
    #[error("the text has more than 67,108,864 bytes")]
    TooLong,
    #[error("memory ran out")]
    OutOfMemory,
    #[error("the text isn't UTF-8")]
    NoText,
    #[error("line {0}: {1}")]
    Refused(usize, Fault),
    #[error("more than 16,385 nodes, 16,777,216 units over an arc or a cost of 2,000,000,000,000,000 aren't served")]
    NotServed,
}

impl From<OutOfMemory> for Stop {
    fn from(_error: OutOfMemory) -> Stop {
        Stop::OutOfMemory
    }
}

impl From<ReadStop> for Stop {
    fn from(stop: ReadStop) -> Stop {
        match stop {
            ReadStop::Failed => Stop::Failed,
            ReadStop::TooLong => Stop::TooLong,
            ReadStop::OutOfMemory => Stop::OutOfMemory,
        }
    }
}

/// The least cost of the problem on standard input.
fn answer(rt: &HostRuntime) -> Result<i128, Stop> {
    let mut source = StdSource::new(rt.stdin());
    let bytes = read_all(rt.alloc(), &mut source, TEXT_LIMIT)?;
    let text = str::from_utf8(&bytes).map_err(|_| Stop::NoText)?;
    let problem = read(rt.alloc(), text).map_err(|refusal| Stop::Refused(
        refusal.line,
        refusal.fault,
    ))?;
    match least_cost(rt.alloc(), &problem)? {
        Answer::Least(cost) => Ok(cost),
        Answer::NotServed => Err(Stop::NotServed),
    }
}

fn main(rt: HostRuntime) -> ExitCode {
    match answer(&rt) {
        Ok(cost) => match println!(rt; "{cost}") {
            Ok(()) => ExitCode::SUCCESS,
            Err(_) => ExitCode::from(4),
        },
        Err(stop) => {
            // (where that can't be written, the status says it)
            let _ = eprintln!(rt; "dimacs: {stop}");
            ExitCode::from(1)
        }
    }
}
