//! A stop file that is there before a run.
ghost use Rattle.std.specs.Prelude.{IfErr};
ghost use Rattle.cluster_inspection.specs.Refusals.{IsRefusal};

use cluster_inspection::{Refusal, System, refused};
use command_words::ApplyWords;
use std::fs::{self, File, Files};

/// Refuses a stop file that is there already, since no slot would be begun: it was left by an earlier run.
pub(crate) fn check_stop_file<H: Files<File = File> + AllocGlobal>(
    system: &System<'_, H>,
    words: &ApplyWords,
) -> Result<(), Refusal>
    ensures { IfErr result IsRefusal }
{
    let Some(path) = &words.stop_file else {
        return Ok(());
    };
    if !matches!(fs::exists(system.rt, path.as_str()), Ok(true)) {
        return Ok(());
    }
    let reason = format!(in system.alloc; "--stop-file {path} is there already: remove it first")?;
    Err(refused(system.alloc, reason.as_bytes())?)
}
