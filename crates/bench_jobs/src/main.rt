//! Jobs that users of this software wait for, one a run, for `bench/run`: each makes its input from a seed, does its
//! work through public calls alone, and prints a digest of all that came out.
//!
//! It is no part of the product: it claims nothing, so its functions have no contract beyond safety.
#![tactic(auto)]

mod calls;
mod day;
mod digest;
mod filler;
mod job;
mod large_values;
mod many_keys;
mod noting;
mod plan_texts;
mod random;
mod rehearsing;
mod requests;
mod serving;
mod surveys;
mod users;
mod varied;
mod words;

use crate::job::Job;
use std::process::ExitCode;
use std::{env, io};

const USAGE: &str =
    "usage: bench_jobs JOB SIZE SEED; crates/bench_jobs/src/job.rt names the jobs and their sizes";

fn main(rt: HostRuntime) -> anyhow::Result<ExitCode> {
    let words = words_given(&rt)?;
    let Some((job, seed)) = Job::read(words.as_slice()) else {
        eprintln!(rt; "{USAGE}")?;
        return Ok(ExitCode::from(2));
    };
    let digest = job.run(&rt, rt.alloc(), seed)?;
    println!(rt; "{digest}")?;
    Ok(ExitCode::SUCCESS)
}

/// The words of the command line after the program's name.
fn words_given(rt: &HostRuntime) -> io::Result<Vec<String>> {
    let mut words = Vec::new(rt.alloc());
    for word in env::args(rt)?.skip(1) {
        words.push(word)?;
    }
    Ok(words)
}
