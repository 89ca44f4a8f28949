//! What is said of a plan that is not done: what is open, and the command that continues.
ghost use Rattle.command_words.specs.Clusters.{IsAddressed};

use crate::shell_words::put_quoted;
use byte_streams::{ByteIn, ByteOut, write_whole};
use cluster_admin::{AdminCommand, AdminReply};
use cluster_inspection::{ASKING, System, find_cluster};
use cluster_survey::FoundCluster;
use command_words::ApplyWords;
use key_slots::{NodeId, SLOTS, Slot};
use node_names::NodeName;
use resp2_wire::Reply;
use server_commands::{Answered, ServerBook, answered_by, request_of};
use server_links::{Link, ReplyLimit};
use server_phases::{ServerPhase, phase_at};
use std::alloc::{AllocError, Global};
use std::fs::{File, Files};
use std::net::{Net, TcpListener, TcpStream};
use std::time::Clock;
use transcripts::Transcript;

/// Where a run that continues finds the moves that are left.
#[derive(Clone, Copy)]
pub(crate) enum Rest<'a> {
    /// In the plan that standard input gave.
    Input,
    /// Nowhere: a plan that may move a slot twice can't be gone on with.
    Anew,
    /// In the plan of this file.
    InFile(&'a String),
    /// There are none: the run closes what is open.
    Nothing,
}

impl<'a> Rest<'a> {
    /// Of a plan of this version in the file with this path, or that standard input gave.
    pub(crate) fn of_plan(version: u8, path: &'a Option<String>) -> Self {
        match path {
            _ if version != 1 => Self::Anew,
            Some(path) => Self::InFile(path),
            None => Self::Input,
        }
    }

    /// Of a plan in the file with this path, if there is one.
    pub(crate) fn of_file(path: &'a Option<String>) -> Self {
        match path {
            Some(path) => Self::InFile(path),
            None => Self::Nothing,
        }
    }

    /// Whether the run continues with the plan.
    fn is_plan(self) -> bool {
        match self {
            Self::Input | Self::InFile(_) => true,
            Self::Anew | Self::Nothing => false,
        }
    }
}

/// After a plan that ended with this status, which is 0 where it is done: says what is open, and how to continue. The
/// nodes are numbered by the names that the plan lists. Where the servers can't be surveyed now, or memory runs out,
/// the command alone is told, as far as it can be.
pub(crate) fn tell_rest<
    H: Net<Listener = TcpListener, Stream = TcpStream> + Clock + Files<File = File> + AllocGlobal,
    E: ByteOut,
>(
    system: &System<'_, H>,
    words: &ApplyWords,
    rest: Rest<'_>,
    names: &[(NodeId, NodeName)],
    status: u8,
    errors: &mut E,
)
    requires { IsAddressed words.now.cluster }
{
    if status == 0 {
        return;
    }
    if let Ok(line) = rest_line(system, words, rest, names) {
        let _told = write_whole(errors, line.as_slice());
    }
}

/// What is open, and the command that continues, with the line's end.
fn rest_line<
    H: Net<Listener = TcpListener, Stream = TcpStream> + Clock + Files<File = File> + AllocGlobal,
>(
    system: &System<'_, H>,
    words: &ApplyWords,
    rest: Rest<'_>,
    names: &[(NodeId, NodeName)],
) -> Result<Vec<u8>, AllocError>
    requires { IsAddressed words.now.cluster }
{
    let alloc = system.alloc;
    let mut keys = Vec::new(alloc);
    let mut line = match find_cluster(system, &words.cluster, names, ASKING) {
        Ok(servers) => open_text(alloc, servers, &mut keys)?,
        Err(_) => Vec::from_slice(alloc, b"what is open is not known")?,
    };
    match rest {
        Rest::Anew => {
            line.extend_from_slice(b"; close what is open with: ")?;
            put_command(alloc, &mut line, words, rest, names)?;
            line.extend_from_slice(b"; then make a new plan for the rest\n")?;
        }
        _ => {
            line.extend_from_slice(b"; continue with: ")?;
            put_command(alloc, &mut line, words, rest, names)?;
            line.push(b'\n')?;
        }
    }
    line.extend_from_slice(keys.as_slice())?;
    Ok(line)
}

/// The slots that are open, as `open: slot 24 from n0 to n1`. A line for each that is migrating, with the key that
/// comes next, is put at the end of the other text.
fn open_text<I: ByteIn + Drop, O: ByteOut + Drop>(
    alloc: Global,
    servers: FoundCluster<I, O>,
    keys: &mut Vec<u8>,
) -> Result<Vec<u8>, AllocError> {
    let FoundCluster {
        book,
        mut links,
        surveyed,
        left_out: _,
    } = servers;
    let mut text = Vec::new(alloc);
    for number in 0..SLOTS as u16 {
        let slot = Slot::of(number);
        let phase = phase_at(&surveyed.survey, slot);
        put_phase(alloc, &mut text, slot, &phase)?;
        if let ServerPhase::Migrating { source, .. } = phase {
            if let Some(link) = links.get_mut(usize::from(source.get())) {
                put_next_key(alloc, keys, link, &book, slot, source)?;
            }
        }
    }
    if text.as_slice().is_empty() {
        text.extend_from_slice(b"no slot is open")?;
    }
    Ok(text)
}

/// Puts the slot at the end, if it is open.
fn put_phase(
    alloc: Global,
    text: &mut Vec<u8>,
    slot: Slot,
    phase: &ServerPhase,
) -> Result<(), AllocError> {
    let mark = if text.as_slice().is_empty() {
        "open: "
    } else {
        ", "
    };
    let number = slot.get();
    let one = match *phase {
        ServerPhase::Closed(_) => return Ok(()),
        ServerPhase::Importing { source, target }
        | ServerPhase::Migrating { source, target }
        | ServerPhase::Told { source, target } => {
            format!(in alloc; "{mark}slot {number} from {source} to {target}")?
        }
        ServerPhase::Strange(_) => format!(in alloc; "{mark}slot {number}")?,
    };
    text.extend_from_slice(one.as_bytes())
}

/// Puts a line with the key of the slot at the end that the node lists first, which is the one that a MIGRATE of one
/// key would move, as `next key of slot 24 at n0: $3 big`. Where there is no such answer, nothing is put.
fn put_next_key<I: ByteIn + Drop, O: ByteOut + Drop>(
    alloc: Global,
    text: &mut Vec<u8>,
    link: &mut Link<I, O>,
    book: &ServerBook,
    slot: Slot,
    node: NodeId,
) -> Result<(), AllocError> {
    let command = AdminCommand::KeysIn(slot, 1);
    let request = request_of(alloc, book, 0, &None, &command)?;
    let Ok(reply) = link.ask(alloc, request.as_slice(), ReplyLimit::texts(1)) else {
        return Ok(());
    };
    let Answered::Reply(AdminReply::Keys(keys)) = answered_by(alloc, node, &command, &reply)? else {
        return Ok(());
    };
    let Some(key) = keys.get().first() else {
        return Ok(());
    };
    let number = slot.get();
    let listed = format!(in alloc; "next key of slot {number} at {node}: ")?;
    let mut shown = Transcript::new(alloc);
    shown.reply(&Reply::Bulk(key.try_copy(alloc)?))?;
    text.extend_from_slice(listed.as_bytes())?;
    text.extend_from_slice(shown.printed.as_slice())
}

/// Puts the command that continues, with the options of this one. A plan that came over standard input has to be in a
/// file. One that lists names finds its nodes by these, so that `--expect` is left out.
fn put_command(
    alloc: Global,
    line: &mut Vec<u8>,
    words: &ApplyWords,
    rest: Rest<'_>,
    names: &[(NodeId, NodeName)],
) -> Result<(), AllocError> {
    line.extend_from_slice(b"reshard resume --cluster ")?;
    let mut mark = "";
    for address in words.cluster.addresses.as_slice() {
        let one = format!(in alloc; "{mark}{address}")?;
        line.extend_from_slice(one.as_bytes())?;
        mark = ",";
    }
    if names.is_empty() || !rest.is_plan() {
        put_path(line, b" --expect ", &words.cluster.expect)?;
    }
    put_number(alloc, line, b" --timeout ", words.timeout)?;
    if let Some(keys) = words.keys_per_second {
        put_number(alloc, line, b" --keys-per-second ", keys)?;
    }
    put_path(line, b" --log ", &words.log)?;
    put_path(line, b" --stop-file ", &words.stop_file)?;
    if words.wait_for_news {
        line.extend_from_slice(b" --wait-for-news")?;
    }
    put_path(line, b" --dead-for-good ", &words.dead_for_good)?;
    match rest {
        Rest::Input => line.extend_from_slice(b" --plan FILE"),
        Rest::InFile(path) => {
            line.extend_from_slice(b" --plan ")?;
            put_quoted(line, path.as_bytes())
        }
        Rest::Anew | Rest::Nothing => Ok(()),
    }
}

/// Puts the option at the end, if it was given.
fn put_path(line: &mut Vec<u8>, name: &[u8], path: &Option<String>) -> Result<(), AllocError> {
    if let Some(path) = path {
        line.extend_from_slice(name)?;
        put_quoted(line, path.as_bytes())?;
    }
    Ok(())
}

fn put_number(
    alloc: Global,
    line: &mut Vec<u8>,
    name: &[u8],
    number: u32,
) -> Result<(), AllocError> {
    let text = format!(in alloc; "{number}")?;
    line.extend_from_slice(name)?;
    line.extend_from_slice(text.as_bytes())
}
