//! What there is to say of a plan that is asked for.
ghost use Rattle.std.specs.Prelude.{◌≡◌, ◌≢◌, ◌⊎◌, ℕ, take};

use byte_streams::{ByteOut, write_whole};
use cluster_inspection::report;
use transcripts::Transcript;

/// What there is to say of a plan that is asked for.
#[derive(Drop)]
pub(crate) enum Said {
    /// The plan, or why there is none; and what is remarked of it on standard error.
    Answer(Transcript, Vec<u8>),
    /// The words name no nodes of the cluster, or give no weights: that is reported.
    Misnamed(Vec<u8>),
}

/// Writes the answer, and on `errors` what is remarked of it; gives its status, or 1 where it could not be written.
pub(crate) fn say<W: ByteOut, E: ByteOut>(
    answer: &Transcript,
    remark: &[u8],
    writer: &mut W,
    errors: &mut E,
) -> u8
    ensures reported { ((result ≡ answer.now.status) × W.took writer.old answer.now.printed.items writer.new
        × (W.failures writer.new ≡ W.failures writer.old))
        ⊎ ((result ≡ 1) × ((n : ℕ) × W.took writer.old (take n answer.now.printed.items) writer.new)
        × (W.failures writer.new ≢ W.failures writer.old)) }
    ensures remarked { E.failures errors.new ≡ E.failures errors.old → E.took errors.old remark.now errors.new }
{
    let status = report(answer, writer);
    remark_on(errors, remark);
    status
}

/// Writes what is remarked, as far as that can be written.
fn remark_on<E: ByteOut>(errors: &mut E, remark: &[u8])
    ensures { E.failures errors.new ≡ E.failures errors.old → E.took errors.old remark.now errors.new }
{
    let _written = write_whole(errors, remark);
}
