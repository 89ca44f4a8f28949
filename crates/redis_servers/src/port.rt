//! The port of the administrator of servers.
ghost use Rattle.std.specs.Prelude.{◌≡◌, ◌≢◌, ◌+◌, ◌<◌, ◌≤◌, ◌↔◌, [], false, length, vec_len, Err, Ok, None};
ghost use Rattle.std.specs.Prelude.{Some, IfErr, IfOk, IsTrue};
ghost use Rattle.std.specs.Prelude.{MatchResult, map, reverse, slice_get, vec_capacity};
ghost use Rattle.std.specs.Option.{option_copied};
ghost use Rattle.cluster_admin.specs.declared.admin.AdminCommand.TheVariants.{SetNode};
ghost use Rattle.cluster_admin.specs.Phases.{IsDistinct};
ghost use Rattle.cluster_admin.specs.declared.port_fault.PortFault.TheVariants.{Memory};
ghost use Rattle.server_commands.specs.Spelling.{Names, request_of as spelled};
ghost use Rattle.redis_servers.specs.Asking.{AsksNode};
ghost use Rattle.redis_servers.specs.Calls.{Answers, Commands, Confirms, Sends, Spreads, is_refusal};
ghost use Rattle.redis_servers.specs.RunHistories.{IsNewCourse};
ghost use Rattle.redis_servers.specs.Duties.{AreThere, duties_after, duties_before};
ghost use Rattle.redis_servers.specs.Hearers.{CanHear, hearers_after};
ghost use Rattle.redis_servers.specs.Meeting.{HearsAll, MeetsAll};
ghost use Rattle.redis_servers.specs.Unheard.{is_unheard};
ghost use Rattle.redis_servers.specs.Saying.{lost_text};
ghost use Rattle.redis_servers.specs.Told.{TellsClosed, TellsSame};
ghost use Rattle.redis_servers.specs.Unmet.{late_text, unmet_text};

use crate::commanding::{Given, Outcome, command_at};
use crate::duty::{Duty, duties_after, duties_before};
use crate::hearers::{Hearer, hearers_after};
use crate::meeting::{hear_all, meet_all};
use crate::pause::Pause;
use crate::port_stop::PortStop;
use crate::run_history::RunHistory;
use crate::seat::ServersSeat;
use crate::setup::PortSetup;
use crate::telling::{Prepared, is_done, prepare, said_of, stops_by, tell_each};
use crate::told::{tell_same, tells_closed};
use crate::unmet::{late_texts, unmet_texts};
use crate::words::{lost_words, or_lost};
use byte_streams::{ByteIn, ByteOut};
use byte_texts::{Memory, Text};
use cluster_admin::{AdminCommand, AdminPort, AdminReply, NodeCount, PortFault, Survey};
use key_slots::{NodeId, OwnerTable, Slot};
use server_commands::{Credentials, ServerBook};
use server_links::Link;
use std::alloc::Global;

/// The servers of a cluster, as their one administrator calls them over a connection to each.
///
/// A refusal, an error of another kind, a strange reply and a reply that does not come end the port: from then on it
/// answers Wire, and nothing is sent. What was sent last may still be done then.
///
/// Before a slot is given to a node, its source has to be a master. Where a node that gives slots away takes some over,
/// the port also waits until the new owner has heard of what other masters took over in this run: of their config
/// epochs, and of the new owners of the slots that it gave away itself. After that the node has to own the slot, and
/// the source still to be a master, unless that was its last slot. Where the run waits for news, a node that is to
/// import a slot has to have heard of its owner. Such a wait ends after 2 seconds, and the port stops. In such a run it
/// also waits, after a node was given a slot, until each other server has heard of that: for 2 seconds at most, and
/// then it continues, and counts the slot.
#[derive(Drop)]
pub struct ServersPort<I: Drop, O: Drop, P: Drop> {
    setup: PortSetup,
    links: Vec<Link<I, O>>,
    history: RunHistory,
    pause: P,
    said: Option<Text>,
    has_stopped: bool,
    unheard: u64,
    ghost links_named: { vec_len links ≡ length setup.book },
    ghost rows: { length setup.survey.rows ≡ length setup.book },
    ghost receivers: { length history.receivers ≡ length setup.book },
    ghost givers: { length history.givers ≡ length setup.book },
}

impl<I: ByteIn + Drop, O: ByteOut + Drop, P: Pause + Drop> ServersPort<I, O, P> {
    ghost use Rattle.redis_servers.specs.InOneGo.{AreOthers, TellsInOneGo, TellsNone};
    ghost use Rattle.redis_servers.specs.Ports.{Fails, Moves};

    /// A port to the servers of the book, one connection for each, right after this survey of them. A MIGRATE waits at
    /// most so many milliseconds for its target, and shows it the credentials where there are some. Where the run waits
    /// for news, the source and the others of a slot are told of its new owner once all of them have heard of it over
    /// the bus, or 2 seconds are over. The clock says when they are.
    pub fn new(
        alloc: Global,
        links: Vec<Link<I, O>>,
        book: ServerBook,
        timeout: u32,
        credentials: Option<Credentials>,
        survey: Survey,
        waits_for_news: bool,
        pause: P,
    ) -> Result<Self, Memory>
        requires links { vec_len links ≡ length book }
        requires rows { length survey.rows ≡ length book }
        ensures links { IfOk result (λ p. p.links ≡ links) }
        ensures setup { IfOk result (λ p. p.setup
            ≡ record {
              alloc = alloc;
              book = book;
              timeout = timeout;
              credentials = credentials;
              survey = survey;
              waits_for_news = waits_for_news;
            }) }
        ensures history { IfOk result (λ p. IsNewCourse survey p.history) }
        ensures said { IfOk result (λ p. p.said ≡ None) }
        ensures open { IfOk result (λ p. p.has_stopped ≡ false) }
        ensures unheard { IfOk result (λ p. p.unheard ≡ 0) }
    {
        let history = RunHistory::new(alloc, &survey)?;
        Ok(Self {
            setup: PortSetup {
                alloc,
                book,
                timeout,
                credentials,
                survey,
                waits_for_news,
            },
            links,
            history,
            pause,
            said: None,
            has_stopped: false,
            unheard: 0,
        })
    }

    /// The connection to the server of this number.
    pub fn link(&self, node: NodeId) -> &Link<I, O>
        requires { node < length self.now.setup.book }
        ensures { slice_get self.now.links.items node ≡ Some result.now }
    {
        &self.links[usize::from(node.get())]
    }

    /// What is said of the last command: the text of its reply, where that is an error, as it is told, and there was
    /// memory for it; or who had not heard in time that the node took a slot over; or why there is no reply that is of
    /// use, or why the port stopped before the command was sent. Of a fault that stops the port something is said in
    /// any case, also where memory ran out.
    pub fn said(&self) -> Option<&Text>
        ensures { option_copied result ≡ self.now.said }
    {
        self.said.as_ref()
    }

    /// How many slots were taken over so that not all other servers had heard of it in time, where the run waits for
    /// news.
    pub fn unheard(&self) -> u64
        ensures { result ≡ self.now.unheard }
    {
        self.unheard
    }

    /// One command of the administrator.
    fn call(&mut self, node: NodeId, command: &AdminCommand) -> Result<AdminReply, PortFault>
        requires { node < length self.old.setup.book }
        ensures { MatchResult result
            (λ reply. Moves (record { gave = I.gave; took = O.took }) self.old
            (record { node = node; command = command.now; reply = reply }) self.new)
            (λ f. Fails (record { gave = I.gave; took = O.took }) self.old node command.now f self.new) }
    {
        if self.has_stopped {
            return Err(PortFault::Wire);
        }
        let Ok(lost) = lost_words(self.setup.alloc) else {
            return Err(PortFault::Memory);
        };
        let Outcome { given, said } = self.answer(node, command);
        match given {
            Ok(reply) => {
                drop(lost);
                self.history.note(node, command, &reply);
                if is_unheard(node, command, &reply, &said) {
                    self.unheard = self.unheard.saturating_add(1);
                }
                self.settle(said, is_refusal(&reply));
                Ok(reply)
            }
            Err(PortFault::Memory) => {
                drop(lost);
                drop(said);
                Err(PortFault::Memory)
            }
            Err(fault) => {
                self.settle(Some(or_lost(said, lost)), true);
                Err(fault)
            }
        }
    }

    /// Tells these nodes in one go that the slot is the owner's: the command is sent to each over its own connection,
    /// and after that the answers are read, so that all of them take as long as the slowest one. A node whose
    /// connection is gone keeps none of the others from being told. What is said then is of the first node that has not
    /// done it, or else of the last; where one has not done it, the port has stopped. Out of memory comes before
    /// anything is sent.
    pub fn tell_in_one_go(
        &mut self,
        slot: Slot,
        owner: NodeId,
        nodes: &[NodeId],
    ) -> Result<Vec<Given>, PortFault>
        requires owner { owner < length self.old.setup.book }
        requires nodes { AreOthers (length self.old.setup.book) owner nodes.now }
        requires distinct { IsDistinct nodes.now }
        ensures { MatchResult result
            (λ answers. TellsInOneGo (record { gave = I.gave; took = O.took }) slot owner nodes.now self.old
            answers.items self.new)
            (λ f. TellsNone f self.old self.new) }
    {
        if self.has_stopped {
            return Err(PortFault::Wire);
        }
        match prepare(&self.setup, slot, owner, nodes.len()) {
            Ok(prepared) => Ok(self.tell_all(slot, owner, nodes, prepared)),
            Err(_) => Err(PortFault::Memory),
        }
    }

    /// Tells the nodes with what was prepared for that.
    fn tell_all(
        &mut self,
        slot: Slot,
        owner: NodeId,
        nodes: &[NodeId],
        prepared: Prepared,
    ) -> Vec<Given>
        requires going { self.old.has_stopped ≡ false }
        requires nodes { AreOthers (length self.old.setup.book) owner nodes.now }
        requires distinct { IsDistinct nodes.now }
        requires lost { prepared.lost ≡ lost_text }
        requires request { prepared.request.items
            ≡ spelled self.old.setup.book self.old.setup.timeout self.old.setup.credentials (SetNode slot owner) }
        requires answers { prepared.answers.items ≡ [] }
        requires room { vec_len prepared.answers + length nodes.now ≤ vec_capacity prepared.answers }
        ensures { TellsInOneGo (record { gave = I.gave; took = O.took }) slot owner nodes.now self.old result.items
            self.new }
    {
        let Prepared {
            lost,
            request,
            mut answers,
        } = prepared;
        let telling = tell_each(
            self.setup.alloc,
            &mut self.links,
            &self.setup,
            &self.history,
            &AdminCommand::SetNode(slot, owner),
            request.as_slice(),
            nodes,
            &mut answers,
        );
        answers.reverse();
        let stops = stops_by(&telling);
        self.settle(said_of(telling, lost), stops);
        answers
    }

    /// What the server said to a command that was sent, and whether the port stops for good.
    fn settle(&mut self, said: Option<Text>, stops: bool)
        ensures links { self.new.links ≡ self.old.links }
        ensures setup { self.new.setup ≡ self.old.setup }
        ensures history { self.new.history ≡ self.old.history }
        ensures unheard { self.new.unheard ≡ self.old.unheard }
        ensures said { self.new.said ≡ said }
        ensures stopped { self.new.has_stopped ≡ stops }
    {
        self.said = said;
        self.has_stopped = stops;
    }

    /// What the command is answered. Out of memory comes before anything is sent.
    fn answer(&mut self, node: NodeId, command: &AdminCommand) -> Outcome
        requires { node < length self.old.setup.book }
        ensures memory { result.given ≡ Err Memory → self.new ≡ self.old }
        ensures answers { result.given ≢ Err Memory
            → Answers (AsksNode (record { gave = I.gave; took = O.took })) self.old.setup self.old.history node
            command.now self.old.links.items result.given result.said self.new.links.items }
        ensures setup { self.new.setup ≡ self.old.setup }
        ensures history { self.new.history ≡ self.old.history }
        ensures unheard { self.new.unheard ≡ self.old.unheard }
    {
        if let Some(fault) = self.setup.unsent_fault(node, command) {
            return Outcome {
                given: Ok(AdminReply::Refused(fault)),
                said: None,
            };
        }
        match self.ready(node, command) {
            Ok(prepared) => self.send(node, command, prepared),
            Err(_) => Outcome {
                given: Err(PortFault::Memory),
                said: None,
            },
        }
    }

    /// Sends the command once servers show what they have to before it; its answer stands once they show what they have
    /// to after it.
    fn send(&mut self, node: NodeId, command: &AdminCommand, prepared: Readied) -> Outcome
        requires node { node < length self.old.setup.book }
        requires named { Names (length self.old.setup.book) command.now }
        requires request { prepared.request.items
            ≡ spelled self.old.setup.book self.old.setup.timeout self.old.setup.credentials command.now }
        requires before { prepared.before.items
            ≡ duties_before self.old.setup.waits_for_news self.old.history self.old.setup.survey node command.now }
        requires after { prepared.after.items ≡ duties_after self.old.history self.old.setup.survey node command.now }
        requires hearers { prepared.hearers.items
            ≡ hearers_after self.old.setup.waits_for_news self.old.setup.survey node command.now }
        requires unmet { reverse prepared.unmet.items ≡ map unmet_text prepared.before.items }
        requires undone { reverse prepared.undone.items ≡ map unmet_text prepared.after.items }
        requires late { reverse prepared.late.items ≡ map late_text prepared.hearers.items }
        ensures sends { Sends (AsksNode (record { gave = I.gave; took = O.took })) self.old.setup self.old.history node
            command.now self.old.links.items result.given result.said self.new.links.items }
        ensures setup { self.new.setup ≡ self.old.setup }
        ensures history { self.new.history ≡ self.old.history }
        ensures unheard { self.new.unheard ≡ self.old.unheard }
    {
        let Readied {
            request,
            before,
            mut unmet,
            after,
            mut undone,
            hearers,
            late,
        } = prepared;
        match self.meet(before.as_slice(), &mut unmet) {
            Ok(()) => {
                let outcome = self.command(node, command, request.as_slice());
                let spread = Spread { hearers, late };
                self.confirm(
                    node,
                    command,
                    outcome,
                    after.as_slice(),
                    &mut undone,
                    spread,
                )
            }
            Err(port_stop) => outcome_of_halt(port_stop),
        }
    }

    /// The answer stands, if servers show what they have to after it.
    fn confirm(
        &mut self,
        node: NodeId,
        command: &AdminCommand,
        outcome: Outcome,
        after: &[Duty],
        undone: &mut Vec<Text>,
        spread: Spread,
    ) -> Outcome
        requires node { node < length self.old.setup.book }
        requires after { after.now ≡ duties_after self.old.history self.old.setup.survey node command.now }
        requires undone { reverse undone.old.items ≡ map unmet_text after.now }
        requires hearers { spread.hearers.items
            ≡ hearers_after self.old.setup.waits_for_news self.old.setup.survey node command.now }
        requires late { reverse spread.late.items ≡ map late_text spread.hearers.items }
        ensures confirms { Confirms (AsksNode (record { gave = I.gave; took = O.took })) self.old.setup self.old.history
            node command.now outcome self.old.links.items result.given result.said self.new.links.items }
        ensures setup { self.new.setup ≡ self.old.setup }
        ensures history { self.new.history ≡ self.old.history }
        ensures unheard { self.new.unheard ≡ self.old.unheard }
    {
        if !is_done(&outcome.given) {
            return outcome;
        }
        match self.meet(after, undone) {
            Ok(()) => self.spread(outcome, spread),
            Err(port_stop) => {
                drop(outcome);
                outcome_of_halt(port_stop)
            }
        }
    }

    /// The answer stands once the other servers have heard of what the command changed, or one has not in time, which
    /// is said then.
    fn spread(&mut self, outcome: Outcome, spread: Spread) -> Outcome
        requires there { CanHear (length self.old.setup.book) spread.hearers.items }
        requires late { reverse spread.late.items ≡ map late_text spread.hearers.items }
        ensures spreads { Spreads (AsksNode (record { gave = I.gave; took = O.took })) self.old.setup self.old.history
            spread.hearers.items outcome self.old.links.items result.given result.said self.new.links.items }
        ensures setup { self.new.setup ≡ self.old.setup }
        ensures history { self.new.history ≡ self.old.history }
        ensures unheard { self.new.unheard ≡ self.old.unheard }
    {
        let Spread { hearers, mut late } = spread;
        match self.hear(hearers.as_slice(), &mut late) {
            Ok(None) => outcome,
            Ok(Some(text)) => said_with(outcome, text),
            Err(port_stop) => {
                drop(outcome);
                outcome_of_halt(port_stop)
            }
        }
    }

    /// Servers hear of a slot's new owner, or the first that has not in time is named by its text.
    fn hear(&mut self, hearers: &[Hearer], texts: &mut Vec<Text>) -> Result<Option<Text>, PortStop>
        requires there { CanHear (length self.old.setup.book) hearers.now }
        requires texts { reverse texts.old.items ≡ map late_text hearers.now }
        ensures heard { HearsAll (AsksNode (record { gave = I.gave; took = O.took })) self.old.setup self.old.history
            hearers.now self.old.links.items result self.new.links.items }
        ensures setup { self.new.setup ≡ self.old.setup }
        ensures history { self.new.history ≡ self.old.history }
        ensures unheard { self.new.unheard ≡ self.old.unheard }
    {
        hear_all(
            &self.setup,
            &self.history,
            &mut self.links,
            &mut self.pause,
            hearers,
            texts,
        )
    }

    /// Servers show what they have to, or one of these texts is said.
    fn meet(&mut self, duties: &[Duty], texts: &mut Vec<Text>) -> Result<(), PortStop>
        requires there { AreThere (length self.old.setup.book) duties.now }
        requires texts { reverse texts.old.items ≡ map unmet_text duties.now }
        ensures met { MeetsAll (AsksNode (record { gave = I.gave; took = O.took })) self.old.setup self.old.history
            duties.now self.old.links.items result self.new.links.items }
        ensures setup { self.new.setup ≡ self.old.setup }
        ensures history { self.new.history ≡ self.old.history }
        ensures unheard { self.new.unheard ≡ self.old.unheard }
    {
        meet_all(
            &self.setup,
            &self.history,
            &mut self.links,
            &mut self.pause,
            duties,
            texts,
        )
    }

    /// Sends the command.
    fn command(&mut self, node: NodeId, command: &AdminCommand, request: &[u8]) -> Outcome
        requires { node < length self.old.setup.book }
        ensures commands { Commands (AsksNode (record { gave = I.gave; took = O.took })) self.old.setup self.old.history
            request.now node command.now self.old.links.items result.given result.said self.new.links.items }
        ensures setup { self.new.setup ≡ self.old.setup }
        ensures history { self.new.history ≡ self.old.history }
        ensures unheard { self.new.unheard ≡ self.old.unheard }
    {
        command_at(
            self.setup.alloc,
            &mut self.links,
            &self.setup,
            &self.history,
            node,
            command,
            request,
        )
    }

    /// All memory that is needed before the command is sent.
    fn ready(&self, node: NodeId, command: &AdminCommand) -> Result<Readied, Memory>
        requires node { node < length self.now.setup.book }
        requires named { Names (length self.now.setup.book) command.now }
        ensures request { IfOk result (λ x. x.request.items
            ≡ spelled self.now.setup.book self.now.setup.timeout self.now.setup.credentials command.now) }
        ensures before { IfOk result (λ x. x.before.items
            ≡ duties_before self.now.setup.waits_for_news self.now.history self.now.setup.survey node command.now) }
        ensures after { IfOk result
            (λ x. x.after.items ≡ duties_after self.now.history self.now.setup.survey node command.now) }
        ensures hearers { IfOk result (λ x. x.hearers.items
            ≡ hearers_after self.now.setup.waits_for_news self.now.setup.survey node command.now) }
        ensures unmet { IfOk result (λ x. reverse x.unmet.items ≡ map unmet_text x.before.items) }
        ensures undone { IfOk result (λ x. reverse x.undone.items ≡ map unmet_text x.after.items) }
        ensures late { IfOk result (λ x. reverse x.late.items ≡ map late_text x.hearers.items) }
    {
        let PortSetup {
            alloc,
            survey,
            waits_for_news,
            ..
        } = &self.setup;
        let request = self.setup.request(command)?;
        let before = duties_before(
            *alloc,
            &self.history,
            survey,
            *waits_for_news,
            node,
            command,
        )?;
        let unmet = unmet_texts(*alloc, before.as_slice())?;
        let after = duties_after(*alloc, &self.history, survey, node, command)?;
        let undone = unmet_texts(*alloc, after.as_slice())?;
        let hearers = hearers_after(*alloc, survey, *waits_for_news, node, command)?;
        let late = late_texts(*alloc, hearers.as_slice())?;
        Ok(Readied {
            request,
            before,
            unmet,
            after,
            undone,
            hearers,
            late,
        })
    }
}

/// What is made before a command is sent: its bytes, what servers have to show before it and after it, and who is to
/// hear of it then, with what is said where they do not.
#[derive(Drop)]
struct Readied {
    request: Vec<u8>,
    before: Vec<Duty>,
    unmet: Vec<Text>,
    after: Vec<Duty>,
    undone: Vec<Text>,
    hearers: Vec<Hearer>,
    late: Vec<Text>,
}

/// Who is to hear of what a command changed, and what is said of each that has not in time, the last one first.
#[derive(Drop)]
struct Spread {
    hearers: Vec<Hearer>,
    late: Vec<Text>,
}

/// The answer, and this text beside it.
fn said_with(outcome: Outcome, text: Text) -> Outcome
    ensures given { result.given ≡ outcome.given }
    ensures said { result.said ≡ Some text }
{
    let Outcome { given, said } = outcome;
    drop(said);
    Outcome {
        given,
        said: Some(text),
    }
}

fn outcome_of_halt(port_stop: PortStop) -> Outcome
    ensures given { result.given ≡ Err port_stop.fault }
    ensures said { result.said ≡ port_stop.said }
{
    let PortStop { fault, said } = port_stop;
    Outcome {
        given: Err(fault),
        said,
    }
}

/// Whether the node took a slot over, and what is said is who had not heard of that in time.
fn is_unheard(node: NodeId, command: &AdminCommand, reply: &AdminReply, said: &Option<Text>) -> bool
    ensures { result ≡ is_unheard node command.now reply.now said.now }
{
    match (command, reply) {
        (AdminCommand::SetNode(_, owner), AdminReply::Ok) => *owner == node && said.is_some(),
        _ => false,
    }
}

fn is_refusal(reply: &AdminReply) -> bool
    ensures { result ≡ is_refusal reply.now }
{
    matches!(reply, AdminReply::Refused(_))
}

impl<I: Drop, O: Drop, P: Drop> NodeCount for ServersPort<I, O, P> {
    ghost count = { λ p. length p.setup.book };

    fn nodes(&self) -> u8 {
        self.setup.book.nodes()
    }
}

impl<I: ByteIn + Drop, O: ByteOut + Drop, P: Pause + Drop> AdminPort for ServersPort<I, O, P> {
    ghost use Rattle.redis_servers.specs.Ports.{Fails, Moves};

    type Seat = ServersSeat;

    ghost calls = { λ s. s };

    ghost fits = { λ p s. Unit {0} };

    ghost moves = { λ p c q. Moves (record { gave = I.gave; took = O.took }) p c q };

    ghost fails = { λ p n c f q. Fails (record { gave = I.gave; took = O.took }) p n c f q };

    ghost clean_gives = { λ p owners clean. IsTrue clean ↔ TellsClosed p.setup.survey owners };

    ghost survey_gives = { λ p calls v. v ≡ p.setup.survey };

    ghost survey_fails = { λ p f. f ≡ Memory };

    ghost matches_gives = { λ p calls v same. IsTrue same ↔ TellsSame p.setup.survey v };

    fn admin(
        &mut self,
        seat: &mut ServersSeat,
        node: NodeId,
        command: AdminCommand,
    ) -> Result<AdminReply, PortFault> {
        let reply = self.call(node, &command)?;
        Ok(seat.keep(node, command, reply))
    }

    /// By the survey that the port was made with.
    fn is_clean(&self, owners: &OwnerTable) -> bool {
        tells_closed(&self.setup.survey, owners)
    }

    /// A copy of the survey that the port was made with.
    fn survey(&self, _seat: &mut ServersSeat) -> Result<Survey, PortFault> {
        Ok(self.setup.survey.try_copy()?)
    }

    /// By the survey that the port was made with.
    fn matches(&self, _seat: &mut ServersSeat, survey: &Survey) -> bool {
        tell_same(&self.setup.survey, survey)
    }
}
