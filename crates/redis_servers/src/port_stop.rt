//! Where a run ends, and what is said of that.
ghost use Rattle.std.specs.Prelude.{◌≡◌, true, false, MatchResult};
ghost use Rattle.redis_servers.specs.Looking.{StopsWith};

use byte_texts::Text;
use cluster_admin::PortFault;

/// Why a command is not sent, or has no reply, and what is said of that.
#[derive(Drop)]
pub(crate) struct PortStop {
    pub fault: PortFault,
    pub said: Option<Text>,
}

/// The run continues if this holds, and else it ends, and the text is said.
pub(crate) fn continue_if(holds: bool, text: Text) -> Result<(), PortStop>
    ensures { MatchResult result (λ _. holds ≡ true) (λ h. (holds ≡ false) × StopsWith text h) }
{
    if holds { Ok(()) } else { Err(stop_with(text)) }
}

/// The run ends here, and the text is said.
fn stop_with(text: Text) -> PortStop
    ensures { StopsWith text result }
{
    PortStop {
        fault: PortFault::Wire,
        said: Some(text),
    }
}
