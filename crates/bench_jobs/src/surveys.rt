//! What eight masters answer to CLUSTER NODES, where they own the slots in many short ranges, and the survey of it as a
//! text.
ghost use Rattle.std.specs.Prelude.{◌≡◌, ◌<◌, length};

use crate::digest::Digest;
use crate::noting::note_refusal;
use crate::random::Random;
use crate::varied::Varied;
use crate::words::{put, put_number};
use cluster_survey::masters_of;
use cluster_views::survey_of;
use listed_nodes::{NodeLines, nodes_in};
use server_commands::ServerBook;
use std::alloc::{AllocError, Global};
use survey_texts::{node_lines, survey_text};

const NODES: u64 = 8;

/// How many slots a range has.
const WIDTH: u64 = 4;

const RANGES: u64 = 16_384 / WIDTH;

/// The answer of each master.
#[derive(Drop)]
pub struct Masters {
    answers: Vec<Varied>,
}

impl Masters {
    pub fn new(alloc: Global, random: &mut Random) -> Result<Self, AllocError> {
        let mut owners = Vec::new(alloc);
        for _ in 0..RANGES {
            owners.push(random.below(NODES))?;
        }
        let mut answers = Vec::new(alloc);
        for node in 0..NODES {
            answers.push(answer_of(alloc, owners.as_slice(), node)?)?;
        }
        Ok(Self { answers })
    }

    /// Reads what each master answers, with other config epochs each time, and prints the survey of it.
    pub fn turn(
        &mut self,
        alloc: Global,
        random: &mut Random,
        digest: &mut Digest,
    ) -> anyhow::Result<()> {
        let mut views = Vec::new(alloc);
        for answer in self.answers.as_mut_slice() {
            answer.vary(random);
            if let Some(lines) = nodes_in(alloc, answer.text.as_slice())? {
                views.push(lines)?;
            }
        }
        let Some(first) = views.as_slice().first() else {
            return Ok(());
        };
        match masters_of(alloc, first.get()) {
            Ok(book) => note_survey(alloc, &book, views.as_slice(), digest),
            Err(fault) => Ok(note_refusal(alloc, digest, &fault)?),
        }
    }
}

fn note_survey(
    alloc: Global,
    book: &ServerBook,
    views: &[NodeLines],
    digest: &mut Digest,
) -> anyhow::Result<()> {
    digest.number(views.len() as u64);
    if views.len() != usize::from(book.nodes()) {
        return Ok(());
    }
    let surveyed = match survey_of(alloc, book, views) {
        Ok(surveyed) => surveyed,
        Err(fault) => return Ok(note_refusal(alloc, digest, &fault)?),
    };
    if surveyed.survey.nodes() == book.nodes() {
        let nodes = node_lines(alloc, book, &surveyed.survey)?;
        let text = survey_text(alloc, nodes.as_slice(), &[], &surveyed.survey, b"")?;
        digest.bytes(text.as_slice());
    }
    Ok(())
}

/// A line for each node, the answering one's own among them.
fn answer_of(alloc: Global, owners: &[u64], asked: u64) -> Result<Varied, AllocError> {
    let mut answer = Varied::new(alloc);
    for node in 0..NODES {
        for _ in 0..40 {
            put_number(&mut answer.text, node)?;
        }
        put(&mut answer.text, b" 127.0.0.1:", 7_000 + node, b"@")?;
        put(&mut answer.text, b"", 17_000 + node, b" ")?;
        if node == asked {
            answer.text.extend_from_slice(b"myself,")?;
        }
        answer.text.extend_from_slice(b"master - 0 0 ")?;
        answer.put_digits()?;
        answer.text.extend_from_slice(b" connected")?;
        put_ranges(&mut answer.text, owners, node)?;
        answer.text.push(b'\n')?;
    }
    Ok(answer)
}

/// The ranges that the node owns.
fn put_ranges(text: &mut Vec<u8>, owners: &[u64], node: u64) -> Result<(), AllocError> {
    for (place, owner) in owners.iter().enumerate() {
        if *owner == node {
            let first = (place as u64).wrapping_mul(WIDTH);
            put(text, b" ", first, b"-")?;
            put_number(text, first.wrapping_add(WIDTH - 1))?;
        }
    }
    Ok(())
}
