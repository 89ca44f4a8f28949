ghost use Rattle.std.specs.Prelude.{◌≡◌, ◌<◌, None, IfOk, IfNone, length};
ghost use Rattle.server_commands.specs.Spelling.{Names, request_of as spelled};
ghost use Rattle.redis_servers.specs.Calls.{unless_there, unsent_fault};

use byte_texts::Memory;
use cluster_admin::{AdminCommand, AdminFault, Survey};
use key_slots::NodeId;
use server_commands::{Credentials, ServerBook, request_of};
use std::alloc::Global;

/// What a run goes by, and leaves as it is.
#[derive(Drop)]
pub struct PortSetup {
    pub(crate) alloc: Global,
    pub(crate) book: ServerBook,
    pub(crate) timeout: u32,
    pub(crate) credentials: Option<Credentials>,
    pub(crate) survey: Survey,
    pub(crate) waits_for_news: bool,
}

impl PortSetup {
    /// The bytes of the command.
    pub(crate) fn request(&self, command: &AdminCommand) -> Result<Vec<u8>, Memory>
        requires { Names (length self.now.book) command.now }
        ensures { IfOk result
            (λ v. v.items ≡ spelled self.now.book self.now.timeout self.now.credentials command.now) }
    {
        request_of(
            self.alloc,
            &self.book,
            self.timeout,
            &self.credentials,
            command,
        )
    }

    /// The refusal of a command that is not sent.
    pub(crate) fn unsent_fault(&self, node: NodeId, command: &AdminCommand) -> Option<AdminFault>
        ensures value { result ≡ unsent_fault (length self.now.book) node command.now }
        ensures named { IfNone result (Names (length self.now.book) command.now) }
    {
        match command {
            AdminCommand::Importing(_, other)
            | AdminCommand::Migrating(_, other)
            | AdminCommand::SetNode(_, other) => self.unless_there(*other),
            AdminCommand::Migrate(_, target) if target.get() == node.get() => {
                self.unless_there(*target).or(Some(AdminFault::SameNode))
            }
            AdminCommand::Migrate(_, target) => self.unless_there(*target),
            AdminCommand::Stable(_) | AdminCommand::KeysIn(_, _) => None,
        }
    }

    fn unless_there(&self, node: NodeId) -> Option<AdminFault>
        ensures value { result ≡ unless_there (length self.now.book) node None }
        ensures there { IfNone result (node < length self.now.book) }
    {
        if node.get() < self.book.nodes() {
            None
        } else {
            Some(AdminFault::UnknownNode)
        }
    }
}
