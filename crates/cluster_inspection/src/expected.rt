//! Whether the names of a cluster's nodes stand for the nodes that someone expects.
ghost use Rattle.std.specs.Prelude.{◌≡◌, ◌↔◌, IfErr, IfOk, IsNone, None, Ok};
ghost use Rattle.cluster_inspection.specs.Starts.{IsExpectedBy, IsUnfound};

use crate::no_cluster::{NoCluster, unsurveyed};
use crate::system::System;
use cluster_survey::FoundCluster;
use command_words::ClusterWords;
use key_slots::NodeId;
use std::alloc::{AllocError, Global};
use std::fs::{self, File, Files};
use survey_texts::{ExpectFault, expected};

/// The cluster, if each name stands for the node for which it stands in the file that the words name.
pub(crate) fn as_expected<H: Files<File = File> + AllocGlobal, I: Drop, O: Drop>(
    system: &System<'_, H>,
    words: &ClusterWords,
    servers: FoundCluster<I, O>,
) -> Result<FoundCluster<I, O>, NoCluster>
    ensures same { IfOk result (λ f. f ≡ servers) }
    ensures expected { IfOk result (λ f. IsExpectedBy words.now.expect f.book) }
    ensures unfound { IfErr result IsUnfound }
{
    let Some(path) = &words.expect else {
        return Ok(servers);
    };
    let reason = match fs::read(system.rt, path.as_str()) {
        Ok(text) => other_than(
            system.alloc,
            expected(system.alloc, &servers.book, text.as_slice()),
        )?,
        Err(error) => Some(format!(in system.alloc; "{path} could not be read: {error}")?),
    };
    match reason {
        None => Ok(servers),
        Some(reason) => Err(unsurveyed(system.alloc, reason.as_bytes())?),
    }
}

/// What is told of lines that expect another cluster, or are none of a survey.
fn other_than(
    alloc: Global,
    found: Result<Option<NodeId>, ExpectFault>,
) -> Result<Option<String>, AllocError>
    ensures { IfOk result (λ reason. IsNone reason ↔ (found ≡ Ok None)) }
{
    match found {
        Ok(None) => Ok(None),
        Ok(Some(node)) => {
            let reason = format!(in alloc; "{node} is not the node that --expect names so")?;
            Ok(Some(reason))
        }
        Err(ExpectFault::Memory) => Err(AllocError),
        Err(fault) => {
            let reason = format!(in alloc; "--expect: {fault}")?;
            Ok(Some(reason))
        }
    }
}
