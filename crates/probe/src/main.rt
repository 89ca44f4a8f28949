//! What the product's readers of bytes answer: each line of standard input is some bytes in hexadecimal, for each of
//! which one line is printed. `tests/try_hostile_bytes.py` compares these with plain slow readers. With the word `live`
//! a short day of a running cluster is printed. `tests/run_refusals.py` refuses each growth of both. With the word
//! `kept` the commands of the input are kept on a trail, and what that takes is counted there, too. With the word
//! `measure` one piece of work is done, which `bench/rehearsals` times. It is no part of the product: it claims
//! nothing, so its functions have no contract beyond safety.
#![tactic(auto)]

mod entries;
mod kept;
mod live;
mod measure;
mod readers;
mod sessions;

use crate::kept::Keeping;
use crate::live::day;
use crate::measure::Job;
use crate::readers::Reader;
use std::process::ExitCode;
use std::{env, io};

const USAGE: &str = "usage: probe frame|requests|reply|session|importing < LINES, probe live, \
    probe kept recorded|running lent|handed wire|script|roomy < LINES, or \
    probe measure JOB NUMBER ..; crates/probe/src/measure/job.rt names the jobs and their numbers";

fn main(rt: HostRuntime) -> anyhow::Result<ExitCode> {
    let words = words_given(&rt)?;
    match Work::read(words.as_slice()) {
        Some(Work::Live) => {
            let printed = day(&rt, rt.alloc())?;
            print!(rt; "{printed}")?;
        }
        Some(Work::Kept(keeping)) => {
            let lines = lines_given(&rt)?;
            keeping.run(&rt, rt.alloc(), lines.as_slice(), &mut rt.stdout())?;
        }
        Some(Work::Measured(job)) => {
            let (done, unit) = (job.run(&rt, rt.alloc())?, job.unit());
            println!(rt; "{done} {unit}")?;
        }
        Some(Work::Answers(reader)) => answer_lines(&rt, reader)?,
        None => {
            eprintln!(rt; "{USAGE}")?;
            return Ok(ExitCode::from(2));
        }
    }
    Ok(ExitCode::SUCCESS)
}

/// The words of the command line after the program's name.
fn words_given(rt: &HostRuntime) -> io::Result<Vec<String>> {
    let mut words = Vec::new(rt.alloc());
    for word in env::args(rt)?.skip(1) {
        words.push(word)?;
    }
    Ok(words)
}

/// The lines of the input.
fn lines_given(rt: &HostRuntime) -> io::Result<Vec<String>> {
    let mut lines = Vec::new(rt.alloc());
    for line in rt.stdin().lines(rt.alloc()) {
        lines.push(line?)?;
    }
    Ok(lines)
}

/// Answers each line of the input by one line.
fn answer_lines(rt: &HostRuntime, reader: Reader) -> anyhow::Result<()> {
    let alloc = rt.alloc();
    for line in rt.stdin().lines(alloc) {
        let bytes = hex::decode(alloc, line?.as_bytes())?;
        let answer = reader.answer(alloc, bytes.as_slice())?;
        println!(rt; "{answer}")?;
    }
    Ok(())
}

/// What the words of the command line ask for.
enum Work {
    Live,
    Kept(Keeping),
    Measured(Job),
    Answers(Reader),
}

impl Work {
    fn read(words: &[String]) -> Option<Self> {
        let (name, rest) = words.split_first()?;
        match name.as_str() {
            "live" if rest.is_empty() => Some(Self::Live),
            "kept" => Some(Self::Kept(Keeping::read(rest)?)),
            "measure" => Some(Self::Measured(Job::read(rest)?)),
            _ => Some(Self::Answers(Reader::read(words)?)),
        }
    }
}
