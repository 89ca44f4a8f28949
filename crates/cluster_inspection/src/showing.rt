//! What is shown beside a survey of servers: their versions, and what their replicas lack.
ghost use Rattle.std.specs.Prelude.{◌≡◌, OnErr, OnOk, length, vec_len};
ghost use Rattle.cluster_inspection.specs.Surveying.{ShowsTold};
ghost use Rattle.server_replicas.specs.Replicas.{asking_of};
ghost use Rattle.server_versions.specs.Asking.{AsksVersion};
ghost use Rattle.transcripts.specs.Writing.{Writes};

use byte_streams::{ByteOut, write_whole};
use byte_texts::Memory;
use cluster_survey::Reach;
use cluster_views::{ServerSurvey, SurveyFault};
use server_commands::{Credentials, ServerBook};
use server_links::Link;
use server_replicas::replica_lines;
use server_versions::{version_lines, versions_of};
use std::alloc::Global;

/// Asks each server for its version, and the replicas of nodes with marks for theirs, and shows what they told, as far
/// as that can be written.
pub(crate) fn show_servers<D: Reach, E: ByteOut>(
    alloc: Global,
    reach: &mut D,
    credentials: &Option<Credentials>,
    links: &mut Vec<Link<D::Input, D::Output>>,
    book: &ServerBook,
    survey: &ServerSurvey,
    errors: &mut E,
) -> Result<(), SurveyFault>
    requires links { vec_len links.old ≡ length book.now }
    requires rows { length survey.now.rows ≡ length book.now }
    ensures shown { OnOk result (ShowsTold
        (AsksVersion (record { gave = D.Input.gave; took = D.Output.took }))
        (asking_of D.reaches D.refuses (record { gave = D.Input.gave; took = D.Output.took }) credentials.now)
        book.now survey.now
        (record { took = E.took; failures = E.failures; before = errors.old; after = errors.new })) }
    ensures unshown { OnErr result (errors.new ≡ errors.old) }
    ensures kept { vec_len links.new ≡ vec_len links.old }
{
    let versions = versions_of(alloc, links, book.nodes())?;
    let mut text = version_lines(alloc, versions.as_slice())?;
    let more = replica_lines(
        alloc,
        reach,
        credentials,
        links,
        book,
        survey,
        versions.as_slice(),
    )?;
    text.extend_from_slice(more.as_slice())?;
    show_text(errors, text.as_slice());
    Ok(())
}

/// Shows the text, as far as it can be written.
fn show_text<E: ByteOut>(errors: &mut E, text: &[u8])
    ensures { Writes E.took E.failures text.now errors.old errors.new }
{
    let _shown = write_whole(errors, text);
}
