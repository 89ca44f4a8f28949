ghost use Rattle.server_commands.specs.Spelling.{auth_request};
ghost use Rattle.server_links.specs.Links.{LogsIn};

use crate::link::Link;
use crate::reply_limit::ReplyLimit;
use byte_streams::{ByteIn, ByteOut};
use cluster_admin::PortFault;
use server_commands::{Credentials, auth_request, lets_in};
use std::alloc::Global;

/// Sends AUTH over the connection. Whether the server lets it in, as one without a password does. Out of memory comes
/// before anything is written.
pub fn authenticate<I: ByteIn + Drop, O: ByteOut + Drop>(
    alloc: Global,
    link: &mut Link<I, O>,
    credentials: &Credentials,
) -> Result<bool, PortFault>
    ensures { LogsIn (record { gave = I.gave; took = O.took }) (auth_request credentials.now) link.old result
        link.new }
{
    let request = auth_request(alloc, credentials)?;
    let reply = link.ask(alloc, request.as_slice(), ReplyLimit::line())?;
    Ok(lets_in(&reply))
}
