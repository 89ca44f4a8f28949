//! A cluster that the environment names, in place of `--cluster`.
ghost use Rattle.std.specs.Prelude.{◌≡◌, ◌++◌, ◌∷◌, [], IfOk, codes};
ghost use Rattle.command_words.specs.CommandLine.{texts};
ghost use Rattle.command_words.specs.Environment.{can_ask, ends_options, has_no_start, is_size_word, is_start_word, takes_cluster};

use crate::command_line::{is_cluster_word, is_survey_word};
use std::alloc::{AllocError, Global};

/// Whether a cluster that the environment names stands in for `--cluster`: the first word is a command that can ask
/// servers, and no word after it says who owns the slots, asks for help, or ends the options.
pub fn takes_cluster(words: &[String]) -> bool
    ensures { result ≡ takes_cluster (texts words.now) }
{
    match words.split_first() {
        Some((command, options)) => can_ask(command.as_bytes()) && has_no_start(options),
        None => false,
    }
}

/// The words with `--cluster` and this value at their end.
pub fn with_cluster(
    alloc: Global,
    words: &[String],
    cluster: &str,
) -> Result<Vec<String>, AllocError>
    ensures { IfOk result (λ all. texts all.items
        ≡ texts words.now ++ (codes "--cluster" ∷ (cluster.now ∷ []))) }
{
    let mut all = Vec::new(alloc);
    for word in words {
        all.push(String::from_str(alloc, word.as_str())?)?;
    }
    all.push(String::from_str(alloc, "--cluster")?)?;
    all.push(String::from_str(alloc, cluster)?)?;
    Ok(all)
}

/// Whether the command can ask the servers of a cluster.
fn can_ask(command: &[u8]) -> bool
    ensures { result ≡ can_ask command.now }
{
    command == b"survey".as_slice()
        || command == b"apply".as_slice()
        || command == b"resume".as_slice()
        || command == b"forget".as_slice()
        || command == b"verify".as_slice()
        || command == b"explain".as_slice()
        || command == b"draw".as_slice()
        || command == b"plan-reshard".as_slice()
        || command == b"plan-rebalance".as_slice()
        || command == b"plan-drain".as_slice()
}

/// Whether none of the words says who owns the slots, asks for help, or ends the options.
fn has_no_start(words: &[String]) -> bool
    ensures { result ≡ has_no_start (texts words.now) }
{
    for word in words {
        if is_start_word(word.as_bytes()) {
            return false;
        }
    }
    true
}

/// Whether the word says who owns the slots, asks for help, or ends the options.
fn is_start_word(word: &[u8]) -> bool
    ensures { result ≡ is_start_word word.now }
{
    is_cluster_word(word) || is_survey_word(word) || is_size_word(word) || ends_options(word)
}

/// `--nodes` or `--even`, by itself or with its value in the same word.
fn is_size_word(word: &[u8]) -> bool
    ensures { result ≡ is_size_word word.now }
{
    word == b"--nodes".as_slice()
        || word.starts_with(b"--nodes=".as_slice())
        || word == b"--even".as_slice()
        || word.starts_with(b"--even=".as_slice())
}

/// Whether the word asks for help, or ends the options.
fn ends_options(word: &[u8]) -> bool
    ensures { result ≡ ends_options word.now }
{
    word == b"--help".as_slice() || word == b"-h".as_slice() || word == b"--".as_slice()
}
