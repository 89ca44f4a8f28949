//! One measured piece of work a run, chosen by its words, so that `bench/rehearsals` can time it from outside.
mod frames;
mod honesty;
mod job;
mod planners;
mod plans;
mod replies;
mod requests;
mod rests;
mod sessions;
mod slots;
mod threads;

pub use job::Job;
