//! The words of the command by which a cluster forgets a node.
ghost use Rattle.std.specs.Prelude.{◌≡◌, IfOk, MatchResult, false};
ghost use Rattle.clap.specs.Words.{found_of, rows_of, rule_of};
ghost use Rattle.command_words.specs.Clusters.{IsAddressed};
ghost use Rattle.command_words.specs.Faults.{IsAtFault};
ghost use Rattle.command_words.specs.Forgetting.{AreForgetRows, HasForget, node_argument};

use crate::arguments::text_in;
use crate::clusters::cluster_words;
use crate::faults::OptionFault;
use crate::usage::ForgetWords;
use clap::{Arg, ArgMatches};
use std::alloc::{AllocError, Global};

/// What the words of `forget` say, or what is wrong with them.
pub fn forget_words(
    alloc: Global,
    given: &ArgMatches,
) -> Result<Result<ForgetWords, OptionFault>, AllocError>
    requires { AreForgetRows (rows_of (found_of given.now)) }
    ensures { IfOk result (λ r. MatchResult r
        (λ g. HasForget (rows_of (found_of given.now)) g × IsAddressed g.cluster)
        (IsAtFault (rows_of (found_of given.now)))) }
{
    let node = text_in(alloc, given, "node")?;
    match cluster_words(alloc, given)? {
        Ok(cluster) => Ok(Ok(ForgetWords { node, cluster })),
        Err(fault) => Ok(Err(fault)),
    }
}

/// The node, which stands without an option before it.
pub fn node_argument<'a>(alloc: Global) -> Arg<'a>
    ensures rule { rule_of result ≡ node_argument }
    ensures local { result.global ≡ false }
{
    Arg::new(alloc, "node")
        .value_name("NODE")
        .help("The master that the others forget, as n3")
        .required(true)
}
