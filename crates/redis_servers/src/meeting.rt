//! Servers show what they have to, or the run ends.
ghost use Rattle.std.specs.Prelude.{◌≡◌, ◌<◌, ◌↔◌, IsTrue, length, map, reverse, vec_len};
ghost use Rattle.redis_servers.specs.Asking.{AsksNode, nodes_question};
ghost use Rattle.redis_servers.specs.Duties.{AreThere, IsThere};
ghost use Rattle.redis_servers.specs.Hearers.{CanHear};
ghost use Rattle.redis_servers.specs.Looking.{LastLook, LookTurn, LooksUntil};
ghost use Rattle.redis_servers.specs.Meeting.{Hears, HearsAll, Meets, MeetsAll, Shows, ShowsMaster, ShowsOwned};
ghost use Rattle.redis_servers.specs.Meeting.{ShowsStill};
ghost use Rattle.redis_servers.specs.Unmet.{disowned_text, late_text, lost_writes_text, replica_text, unmet_text};

use crate::duty::Duty;
use crate::hearers::Hearer;
use crate::hearing::wait_until_heard;
use crate::looking::{look_at, role_at};
use crate::pause::Pause;
use crate::port_stop::{PortStop, continue_if};
use crate::run_history::RunHistory;
use crate::setup::PortSetup;
use crate::shown::{owns_slot, shows_news, shows_owner};
use byte_streams::{ByteIn, ByteOut};
use byte_texts::Text;
use key_slots::{NodeId, Slot};
use listed_nodes::NodeLine;
use server_links::Link;

/// Servers show one after the other what they have to, up to the first that does not. These are the texts that are said
/// then, that of the first duty last.
pub(crate) fn meet_all<I: ByteIn + Drop, O: ByteOut + Drop, P: Pause>(
    setup: &PortSetup,
    history: &RunHistory,
    links: &mut Vec<Link<I, O>>,
    pause: &mut P,
    duties: &[Duty],
    texts: &mut Vec<Text>,
) -> Result<(), PortStop>
    requires there { AreThere (length setup.now.book) duties.now }
    requires texts { reverse texts.old.items ≡ map unmet_text duties.now }
    requires links { vec_len links.old ≡ length setup.now.book }
    requires rows { length setup.now.survey.rows ≡ length setup.now.book }
    ensures met { MeetsAll (AsksNode (record { gave = I.gave; took = O.took })) setup.now history.now duties.now
        links.old.items result links.new.items }
    ensures count { vec_len links.new ≡ vec_len links.old }
{
    let [duty, others @ ..] = duties else {
        return Ok(());
    };
    let Some(text) = texts.pop() else {
        unreachable!();
    };
    match meet(setup, history, links, pause, *duty, text) {
        Ok(()) => meet_all(setup, history, links, pause, others, texts),
        Err(port_stop) => Err(port_stop),
    }
}

/// Servers hear one after the other of a slot's new owner, up to the first that has not in 2 seconds: its text is the
/// answer. The news go to all of them at once, so the others had these 2 seconds, too. These are the texts, that of the
/// first server last.
pub(crate) fn hear_all<I: ByteIn + Drop, O: ByteOut + Drop, P: Pause>(
    setup: &PortSetup,
    history: &RunHistory,
    links: &mut Vec<Link<I, O>>,
    pause: &mut P,
    hearers: &[Hearer],
    texts: &mut Vec<Text>,
) -> Result<Option<Text>, PortStop>
    requires there { CanHear (length setup.now.book) hearers.now }
    requires texts { reverse texts.old.items ≡ map late_text hearers.now }
    requires links { vec_len links.old ≡ length setup.now.book }
    requires rows { length setup.now.survey.rows ≡ length setup.now.book }
    ensures heard { HearsAll (AsksNode (record { gave = I.gave; took = O.took })) setup.now history.now hearers.now
        links.old.items result links.new.items }
    ensures count { vec_len links.new ≡ vec_len links.old }
{
    let [hearer, others @ ..] = hearers else {
        return Ok(None);
    };
    let Some(text) = texts.pop() else {
        unreachable!();
    };
    match hears(setup, history, links, pause, *hearer) {
        Ok(true) => hear_all(setup, history, links, pause, others, texts),
        Ok(false) => Ok(Some(text)),
        Err(port_stop) => Err(port_stop),
    }
}

/// Whether the server's list shows the slot's owner before the time is over.
fn hears<I: ByteIn + Drop, O: ByteOut + Drop, P: Pause>(
    setup: &PortSetup,
    history: &RunHistory,
    links: &mut Vec<Link<I, O>>,
    pause: &mut P,
    hearer: Hearer,
) -> Result<bool, PortStop>
    requires node { hearer.node < length setup.now.book }
    requires owner { hearer.owner < length setup.now.book }
    requires links { vec_len links.old ≡ length setup.now.book }
    requires rows { length setup.now.survey.rows ≡ length setup.now.book }
    ensures hears { Hears (AsksNode (record { gave = I.gave; took = O.took })) setup.now history.now hearer
        links.old.items result links.new.items }
    ensures count { vec_len links.new ≡ vec_len links.old }
{
    let Hearer { node, slot, owner } = hearer;
    let duty = Duty::ShowsOwner(node, slot, owner);
    shows_in_time(setup, history, links, pause, &duty, node)
}

fn meet<I: ByteIn + Drop, O: ByteOut + Drop, P: Pause>(
    setup: &PortSetup,
    history: &RunHistory,
    links: &mut Vec<Link<I, O>>,
    pause: &mut P,
    duty: Duty,
    text: Text,
) -> Result<(), PortStop>
    requires there { IsThere (length setup.now.book) duty }
    requires text { text ≡ unmet_text duty }
    requires links { vec_len links.old ≡ length setup.now.book }
    requires rows { length setup.now.survey.rows ≡ length setup.now.book }
    ensures met { Meets (AsksNode (record { gave = I.gave; took = O.took })) setup.now history.now duty links.old.items
        result links.new.items }
    ensures count { vec_len links.new ≡ vec_len links.old }
{
    match duty {
        Duty::KnowsEpoch(source, target) => wait_until_heard(
            setup.alloc,
            links,
            pause,
            &setup.credentials,
            source,
            target,
            setup.book.server(source).name.get(),
            text,
        ),
        Duty::HasNews(node) => { wait_until_shown(setup, history, links, pause, &duty, node, text) }
        Duty::ShowsOwner(node, _, _) => {
            wait_until_shown(setup, history, links, pause, &duty, node, text)
        }
        Duty::IsMaster(source) => check_master(setup, links, source, text),
        Duty::OwnsSlot(target, slot) => check_owner(setup, links, target, slot, text),
        Duty::IsStillMaster(source, slot) => {
            check_still(setup, history, links, source, slot, text)
        }
    }
}

/// Waits until the node's list shows what it has to.
fn wait_until_shown<I: ByteIn + Drop, O: ByteOut + Drop, P: Pause>(
    setup: &PortSetup,
    history: &RunHistory,
    links: &mut Vec<Link<I, O>>,
    pause: &mut P,
    duty: &Duty,
    node: NodeId,
    text: Text,
) -> Result<(), PortStop>
    requires duty { IsThere (length setup.now.book) duty.now }
    requires there { node < vec_len links.old }
    requires rows { length setup.now.survey.rows ≡ length setup.now.book }
    requires text { text ≡ unmet_text duty.now }
    ensures waits { LooksUntil (AsksNode (record { gave = I.gave; took = O.took })) setup.now.credentials nodes_question
        (Shows setup.now history.now duty.now) node (unmet_text duty.now) links.old.items result links.new.items }
    ensures count { vec_len links.new ≡ vec_len links.old }
{
    match shows_in_time(setup, history, links, pause, duty, node) {
        Ok(shown) => continue_if(shown, text),
        Err(port_stop) => Err(port_stop),
    }
}

/// Whether the node's list shows what it has to before the time is over. It is asked once at least.
fn shows_in_time<I: ByteIn + Drop, O: ByteOut + Drop, P: Pause>(
    setup: &PortSetup,
    history: &RunHistory,
    links: &mut Vec<Link<I, O>>,
    pause: &mut P,
    duty: &Duty,
    node: NodeId,
) -> Result<bool, PortStop>
    requires duty { IsThere (length setup.now.book) duty.now }
    requires there { node < vec_len links.old }
    requires rows { length setup.now.survey.rows ≡ length setup.now.book }
    ensures last { LastLook (AsksNode (record { gave = I.gave; took = O.took })) setup.now.credentials nodes_question
        (Shows setup.now history.now duty.now) node links.old.items result links.new.items }
    ensures count { vec_len links.new ≡ vec_len links.old }
{
    pause.begin();
    for _ in 0..u64::MAX {
        match look_for(setup, history, links, duty, node) {
            Ok(true) => return Ok(true),
            Ok(false) => {}
            Err(port_stop) => return Err(port_stop),
        }
        if !pause.pause() {
            return Ok(false);
        }
    }
    look_for(setup, history, links, duty, node)
}

/// Looks once whether the node's list shows what it has to.
fn look_for<I: ByteIn + Drop, O: ByteOut + Drop>(
    setup: &PortSetup,
    history: &RunHistory,
    links: &mut Vec<Link<I, O>>,
    duty: &Duty,
    node: NodeId,
) -> Result<bool, PortStop>
    requires duty { IsThere (length setup.now.book) duty.now }
    requires there { node < vec_len links.old }
    requires rows { length setup.now.survey.rows ≡ length setup.now.book }
    ensures turn { LookTurn (AsksNode (record { gave = I.gave; took = O.took })) setup.now.credentials nodes_question
        (Shows setup.now history.now duty.now) node links.old.items result links.new.items }
    ensures count { vec_len links.new ≡ vec_len links.old }
{
    match look_at(setup.alloc, links, &setup.credentials, node) {
        Ok(nodes) => Ok(shows(setup, history, duty, nodes.get())),
        Err(port_stop) => Err(port_stop),
    }
}

fn shows(setup: &PortSetup, history: &RunHistory, duty: &Duty, nodes: &[NodeLine]) -> bool
    requires duty { IsThere (length setup.now.book) duty.now }
    requires rows { length setup.now.survey.rows ≡ length setup.now.book }
    ensures { IsTrue result ↔ Shows setup.now history.now duty.now nodes.now }
{
    match duty {
        Duty::HasNews(node) => shows_news(setup, history, *node, nodes),
        Duty::ShowsOwner(_, slot, owner) => {
            shows_owner(setup.book.server(*owner).name.get(), *slot, nodes)
        }
        _ => false,
    }
}

/// The source is a master.
fn check_master<I: ByteIn + Drop, O: ByteOut + Drop>(
    setup: &PortSetup,
    links: &mut Vec<Link<I, O>>,
    source: NodeId,
    text: Text,
) -> Result<(), PortStop>
    requires source { source < vec_len links.old }
    requires text { text ≡ replica_text source }
    ensures shows { ShowsMaster (AsksNode (record { gave = I.gave; took = O.took })) setup.now source links.old.items
        result links.new.items }
    ensures count { vec_len links.new ≡ vec_len links.old }
{
    match role_at(setup.alloc, links, &setup.credentials, source) {
        Ok(is_master) => continue_if(is_master, text),
        Err(port_stop) => Err(port_stop),
    }
}

/// The target is a master that owns the slot.
fn check_owner<I: ByteIn + Drop, O: ByteOut + Drop>(
    setup: &PortSetup,
    links: &mut Vec<Link<I, O>>,
    target: NodeId,
    slot: Slot,
    text: Text,
) -> Result<(), PortStop>
    requires target { target < vec_len links.old }
    requires text { text ≡ disowned_text target }
    ensures shows { ShowsOwned (AsksNode (record { gave = I.gave; took = O.took })) setup.now target slot
        links.old.items result links.new.items }
    ensures count { vec_len links.new ≡ vec_len links.old }
{
    match look_at(setup.alloc, links, &setup.credentials, target) {
        Ok(nodes) => continue_if(owns_slot(slot, nodes.get()), text),
        Err(port_stop) => Err(port_stop),
    }
}

/// The source is a master still, or this slot was its last one.
fn check_still<I: ByteIn + Drop, O: ByteOut + Drop>(
    setup: &PortSetup,
    history: &RunHistory,
    links: &mut Vec<Link<I, O>>,
    source: NodeId,
    slot: Slot,
    text: Text,
) -> Result<(), PortStop>
    requires there { source < vec_len links.old }
    requires row { source < length setup.now.survey.rows }
    requires text { text ≡ lost_writes_text source }
    ensures shows { ShowsStill (AsksNode (record { gave = I.gave; took = O.took })) setup.now history.now source slot
        links.old.items result links.new.items }
    ensures count { vec_len links.new ≡ vec_len links.old }
{
    match role_at(setup.alloc, links, &setup.credentials, source) {
        Ok(true) => Ok(()),
        Ok(false) => { continue_if(history.is_emptied(&setup.survey, source, slot), text) }
        Err(port_stop) => Err(port_stop),
    }
}
