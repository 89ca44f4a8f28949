//! Why there is nothing to draw.
ghost use Rattle.plan_previews.specs.Telling.{IsToldTo};

use byte_streams::ByteOut;
use cluster_inspection::{Refusal, out_of_memory, report};

/// Tells why there is nothing to draw, and gives the status of that.
pub fn tell<E: ByteOut>(refusal: Refusal, errors: &mut E) -> u8
    ensures { IsToldTo refusal
        (record { took = E.took; failures = E.failures; before = errors.old; after = errors.new }) result }
{
    match refusal {
        Refusal::Memory => out_of_memory(errors),
        Refusal::Unread => 1,
        Refusal::Answer(answer) => report(&answer, errors),
    }
}
