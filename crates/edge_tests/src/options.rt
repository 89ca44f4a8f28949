//! Options of servers that can be served.
ghost use Rattle.std.specs.Prelude.{◌≤◌};
ghost use Rattle.loopback_servers.specs.Servings.{IsServable};

use cluster_cli::ServeOptions;

/// Options that can be served. A thread knows no more of what it is handed than its type says.
#[derive(Drop)]
pub struct ServedOptions {
    pub(crate) options: ServeOptions,
    ghost servable: { IsServable options },
}

/// Three nodes with an even split and so many workers, which accept so many connections at each node.
pub fn options_of(base_port: u16, workers: u8, connections: u32) -> ServedOptions
    requires port { base_port ≤ 65528 }
    requires some { 1 ≤ workers }
    requires most { workers ≤ 32 }
{
    ServedOptions {
        options: ServeOptions {
            nodes: 3,
            even: 3,
            base_port,
            workers,
            connections,
            answers_clients: false,
        },
    }
}

/// One node with two workers, which accepts two connections and answers questions.
pub fn asked_options(base_port: u16) -> ServedOptions
    requires { base_port ≤ 65528 }
{
    ServedOptions {
        options: ServeOptions {
            nodes: 1,
            even: 1,
            base_port,
            workers: 2,
            connections: 2,
            answers_clients: true,
        },
    }
}

/// Two nodes with four workers, which accept seven connections at each node and answer questions.
pub fn previewed_options(base_port: u16) -> ServedOptions
    requires { base_port ≤ 65528 }
{
    ServedOptions {
        options: ServeOptions {
            nodes: 2,
            even: 2,
            base_port,
            workers: 4,
            connections: 7,
            answers_clients: true,
        },
    }
}
