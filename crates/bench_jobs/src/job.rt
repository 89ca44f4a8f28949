use crate::calls::calls;
use crate::day::play_day;
use crate::large_values::large_values;
use crate::many_keys::many_keys;
use crate::plan_texts::plan_texts;
use crate::serving::serve;
use std::alloc::Global;
use std::sync::Wait;
use std::thread::Threads;

/// A job, with how much of it is done.
#[derive(Clone, Copy)]
pub enum Job {
    /// `day LINES`: a rehearsal of so many lines.
    Day(u64),
    /// `many-keys KEYS`: a rehearsal in which plans move about so many keys, several times.
    ManyKeys(u64),
    /// `serve REQUESTS`: so many requests by each of 32 connections to a running cluster.
    Serve(u64),
    /// `threads CALLS`: so many calls by the threads of each of six running clusters.
    Threads(u64),
    /// `large-values ELEMENTS`: a hash, a list and a set of so many elements.
    LargeValues(u64),
    /// `plan-texts ROUNDS`: so often plans, surveys and the texts of both.
    PlanTexts(u64),
}

impl Job {
    /// The job that the words of a command line name, and the seed.
    pub fn read(words: &[String]) -> Option<(Self, u64)> {
        let [name, size, seed] = words else {
            return None
        };
        let size = size.as_str().parse::<u64>().ok()?;
        let seed = seed.as_str().parse::<u64>().ok()?;
        if size == 0 || size > 100_000_000 {
            return None;
        }
        match name.as_str() {
            "day" => Some((Self::Day(size), seed)),
            "many-keys" => Some((Self::ManyKeys(size), seed)),
            "serve" => Some((Self::Serve(size), seed)),
            "threads" => Some((Self::Threads(size), seed)),
            "large-values" => Some((Self::LargeValues(size), seed)),
            "plan-texts" => Some((Self::PlanTexts(size), seed)),
            _ => None,
        }
    }

    /// Does the job, and gives the digest of its results.
    pub fn run<R: Threads + Wait + Sync>(
        self,
        rt: &R,
        alloc: Global,
        seed: u64,
    ) -> anyhow::Result<u64> {
        match self {
            Self::Day(lines) => play_day(alloc, lines, seed),
            Self::ManyKeys(keys) => many_keys(alloc, keys, seed),
            Self::Serve(requests) => serve(rt, alloc, requests, seed),
            Self::Threads(count) => calls(rt, alloc, count, seed),
            Self::LargeValues(elements) => large_values(alloc, elements, seed),
            Self::PlanTexts(rounds) => plan_texts(alloc, rounds, seed),
        }
    }
}
