ghost use Rattle.std.specs.Prelude.{◌≡◌, ◌<◌, ◌≤◌, length, vec_len};

use byte_texts::Text;
use key_slots::NodeId;
use std::marker::Model;

/// How the servers of a cluster know one of them.
#[derive(Drop)]
pub struct Server {
    /// Its ID: 40 hexadecimal digits.
    pub name: Text,
    /// The IP address at which the others reach it.
    pub host: Text,
    /// The port at which it serves clients, and the others' MIGRATE.
    pub port: u16,
}

/// The servers of a cluster, 1 to 255, as they know one another: n0 and on.
pub struct ServerBook {
    servers: Vec<Server>,
}

/// Written out, so that a proof sees one call where such a value is dropped.
impl Drop for ServerBook {
    fn drop(self) {
        let Self { servers } = self;
        drop(servers);
    }
}

impl Model for ServerBook {
    ghost use Rattle.std.specs.Prelude.{List, length, ◌≤◌};
    ghost use Rattle.server_commands.specs.declared.book.Server.{Server};

    ghost Value = { List Server };

    ghost view = { λ b. b.servers.items };

    ghost invariant = { λ b. (1 ≤ length b.servers.items) × (length b.servers.items ≤ 255) };
}

impl ServerBook {
    ghost use Rattle.server_commands.specs.Servers.{server_at};

    /// The book of these servers, which are not copied.
    pub fn of(servers: Vec<Server>) -> Self
        requires some { 1 ≤ vec_len servers }
        requires few { vec_len servers ≤ 255 }
        ensures { result ≡ servers.items }
    {
        Self { servers }
    }

    /// How many servers there are.
    pub fn nodes(&self) -> u8
        ensures value { result ≡ length self.now }
        ensures least { 1 ≤ result }
        ensures most { result ≤ 255 }
    {
        self.servers.len() as u8
    }

    /// The server of this number.
    pub fn server(&self, node: NodeId) -> &Server
        requires { node < length self.now }
        ensures { result.now ≡ server_at self.now node }
    {
        &self.servers[usize::from(node.get())]
    }

    /// The servers, from n0 on.
    pub fn servers(&self) -> &[Server]
        ensures { result.now ≡ self.now }
    {
        self.servers.as_slice()
    }
}
