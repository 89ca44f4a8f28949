use crate::measure::frames::{Batch, Way, pass};
use crate::measure::honesty;
use crate::measure::planners::{self, Goal, plan_often};
use crate::measure::plans::{self, PlanForm, PlanWork};
use crate::measure::replies::{ReplyKind, encode_often};
use crate::measure::requests::{decode, decode_bulks, stream_of};
use crate::measure::rests::resume_often;
use crate::measure::sessions::{Cut, serve};
use crate::measure::slots::sum_of_slots;
use crate::measure::threads::{calls, world_calls};
use byte_texts::MAX_BYTES;
use std::alloc::Global;
use std::rt::Clock;
use std::sync::Wait;
use std::thread::Threads;

/// A measured piece of work.
#[derive(Clone, Copy)]
pub enum Job {
    /// `slots COUNT`: the slots of so many keys of 32 bytes.
    Slots(usize),
    /// `stream COUNT`: only makes the bytes that `decode` decodes.
    Stream(usize),
    /// `decode COUNT PIECE`: so many requests, fed in pieces of so many bytes, or at once where that is 0.
    Decode(usize, usize),
    /// `bulk LENGTH PIECE TIMES`: so often a request with one word of so many bytes.
    Bulk(usize, usize, usize),
    /// `encode-status COUNT`, `encode-number COUNT`, `encode-text COUNT` and `encode-array COUNT`: so many replies.
    Encode(ReplyKind, usize),
    /// `sessions COUNT`: so many sessions of ten commands, each of which comes in a read of its own.
    /// `pipelined COUNT`: the same with all commands in one read.
    Sessions(Cut, usize),
    /// `read-texts COUNT LENGTH TIMES` and `write-texts COUNT LENGTH TIMES`: so often a frame of so many keys with
    /// texts of so many bytes. `read-hash COUNT TIMES` and `write-hash COUNT TIMES`: one of a hash of so many fields.
    Frames(Way, Batch, usize),
    /// `read-commands SLOTS TIMES`, and `print-`, `verify-` and `copy-commands`: so often a plan of so many slots,
    /// with a line for each command. `read-move SLOTS TIMES` and so on: the same in one line. `read-rounds MOVES TIMES`
    /// and so on: a plan of so many moves of 64 slots, with a line for each command.
    Plans(PlanWork, PlanForm, usize, usize),
    /// `reshard-all TIMES`, `reshard-in-turn TIMES`, `rebalance-all TIMES` and `rebalance-in-turn TIMES`: so often a
    /// plan that moves all slots of eight nodes, or all but those of one.
    Planner(Goal, usize),
    /// `resume SLOTS TIMES`: so often a survey of eight nodes, and the plan of the rests of so many slots.
    Resume(usize, usize),
    /// `honesty COUNT`: the search of a trail of so many calls, each second of which follows an ASK. What is done is
    /// given as the microseconds of the search alone, by the clock.
    Honesty(usize),
    /// `calls THREADS NODES COUNT`: so often a command by each of so many threads, which share the nodes of a running
    /// cluster in turn. `world-calls CALLERS NODES COUNT`: the same commands at a world, by one thread. What is done
    /// is given as the microseconds of the calls alone, by the clock.
    Calls(Threading, usize, usize, usize),
}

/// Who makes the calls.
#[derive(Clone, Copy)]
pub enum Threading {
    /// A thread for each caller, at a running cluster.
    Each,
    /// One thread for all, at a world.
    One,
}

impl Job {
    /// The job that the words of a command line name.
    pub fn read(words: &[String]) -> Option<Self> {
        match words {
            [name, count] => Self::of_count(name.as_str(), number_of(count)?),
            [name, first, second] => {
                Self::of_two(name.as_str(), number_of(first)?, number_of(second)?)
            }
            [name, first, second, times] => Self::of_three(
                name.as_str(),
                number_of(first)?,
                number_of(second)?,
                number_of(times)?,
            ),
            _ => None,
        }
    }

    fn of_count(name: &str, count: usize) -> Option<Self> {
        match name {
            "slots" => Some(Self::Slots(count)),
            "stream" => Some(Self::Stream(count)),
            "sessions" => Some(Self::Sessions(Cut::EachCommand, count)),
            "pipelined" => Some(Self::Sessions(Cut::None, count)),
            "honesty" => Some(Self::Honesty(count)),
            _ => match planners::read_goal(name) {
                Some(goal) => Some(Self::Planner(goal, count)),
                None => Some(Self::Encode(ReplyKind::read(name)?, count)),
            },
        }
    }

    fn of_two(name: &str, first: usize, second: usize) -> Option<Self> {
        match name {
            "decode" => Some(Self::Decode(first, second)),
            "read-hash" => Some(Self::Frames(Way::Read, hash_of(first)?, second)),
            "write-hash" => Some(Self::Frames(Way::Write, hash_of(first)?, second)),
            "resume" => Some(Self::Resume(first, second)),
            _ => {
                let (work, form) = plans::read_work(name)?;
                Some(Self::Plans(work, form, first, second))
            }
        }
    }

    fn of_three(name: &str, first: usize, second: usize, times: usize) -> Option<Self> {
        match name {
            "bulk" if first <= MAX_BYTES => Some(Self::Bulk(first, second, times)),
            "calls" => Some(Self::Calls(Threading::Each, first, second, times)),
            "world-calls" => Some(Self::Calls(Threading::One, first, second, times)),
            "read-texts" => Some(Self::Frames(Way::Read, texts_of(first, second)?, times)),
            "write-texts" => Some(Self::Frames(Way::Write, texts_of(first, second)?, times)),
            _ => None,
        }
    }

    /// Does the work, and returns how much of its unit was done.
    pub fn run<R: Threads + Wait + Clock + Sync>(
        self,
        rt: &R,
        alloc: Global,
    ) -> anyhow::Result<u64> {
        match self {
            Self::Slots(count) => Ok(sum_of_slots(count)),
            Self::Stream(count) => Ok(stream_of(alloc, count)?.len() as u64),
            Self::Decode(count, piece) => {
                let stream = stream_of(alloc, count)?;
                decode(alloc, stream.as_slice(), piece)
            }
            Self::Bulk(length, piece, times) => decode_bulks(alloc, length, piece, times),
            Self::Encode(kind, count) => encode_often(alloc, kind, count),
            Self::Sessions(cut, count) => serve(alloc, cut, count),
            Self::Frames(way, batch, times) => pass(alloc, way, batch, times),
            Self::Plans(work, form, slots, times) => plans::work(alloc, work, form, slots, times),
            Self::Planner(goal, times) => plan_often(alloc, goal, times),
            Self::Resume(slots, times) => resume_often(alloc, slots, times),
            Self::Honesty(count) => honesty::search(rt, alloc, count),
            Self::Calls(Threading::Each, threads, nodes, count) => calls(
                rt, alloc, threads, nodes, count,
            ),
            Self::Calls(Threading::One, callers, nodes, count) => world_calls(
                rt, alloc, callers, nodes, count,
            ),
        }
    }

    /// What the number that [`Job::run`] returns counts.
    pub fn unit(self) -> &'static str {
        match self {
            Self::Slots(_) => "is the sum of the slots",
            Self::Stream(_) => "bytes of requests",
            Self::Decode(_, _) | Self::Bulk(_, _, _) => "requests",
            Self::Encode(_, _) => "bytes of replies",
            Self::Sessions(_, _) => "bytes of answers",
            Self::Frames(_, _, _) => "bytes of frames",
            Self::Plans(_, _, _, _) | Self::Planner(_, _) | Self::Resume(_, _) => {
                "commands of a plan"
            }
            Self::Calls(_, _, _, _) | Self::Honesty(_) => "microseconds",
        }
    }
}

/// The word's number, if it is one.
fn number_of(word: &String) -> Option<usize> {
    word.as_str().parse::<usize>().ok()
}

/// A batch that a frame may hold: 1 to 1,000 keys.
fn texts_of(count: usize, length: usize) -> Option<Batch> {
    if count == 0 || count > 1_000 || length > MAX_BYTES {
        return None;
    }
    Some(Batch::Texts(count as u16, length))
}

/// A batch that a frame may hold: a hash of 1 to 1,048,576 fields.
fn hash_of(count: usize) -> Option<Batch> {
    if count == 0 || count > 1_048_576 {
        return None;
    }
    Some(Batch::Hash(count as u32))
}
