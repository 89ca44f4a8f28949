//! When two replies are equal, and which replies are no answer of a store.
use byte_texts::Text;
use cluster_node::AdminReply;
use resp2_wire::Reply;

/// Whether two replies to a command on a text, or two redirections, are equal.
pub(crate) fn is_same(one: &Reply, two: &Reply) -> bool {
    match one {
        Reply::Simple(text) => matches!(two, Reply::Simple(other) if text.get() == other.get()),
        Reply::Error(text) => matches!(two, Reply::Error(other) if text.get() == other.get()),
        Reply::Bulk(text) => matches!(two, Reply::Bulk(other) if text.get() == other.get()),
        Reply::Number(number) => matches!(two, Reply::Number(other) if *number == *other),
        Reply::Null => matches!(two, Reply::Null),
        Reply::NullArray | Reply::Array(_) => false,
    }
}

fn are_same_keys(one: &[Text], two: &[Text]) -> bool {
    one.len() == two.len()
        && one
            .iter()
            .zip(two.iter())
            .all(|(key, other)| key.get() == other.get())
}

pub(crate) fn is_same_admin(one: &AdminReply, two: &AdminReply) -> bool {
    match one {
        AdminReply::Ok => matches!(two, AdminReply::Ok),
        AdminReply::NoKey => matches!(two, AdminReply::NoKey),
        AdminReply::Keys(keys) =>
            matches!(two, AdminReply::Keys(other) if are_same_keys(keys.get(), other.get())),
        AdminReply::Refused(fault) => matches!(two, AdminReply::Refused(other) if *fault == *other),
    }
}

/// Whether the command was not served: the reply sends the client elsewhere, or says that it is to come again or that
/// its keys are in several slots.
pub(crate) fn is_unserved(reply: &Reply) -> bool {
    match reply {
        Reply::Error(text) => is_redirection(text.get()),
        _ => false,
    }
}

fn is_redirection(text: &[u8]) -> bool {
    text.starts_with(b"MOVED ")
        || text.starts_with(b"ASK ")
        || text.starts_with(b"TRYAGAIN ")
        || text.starts_with(b"CROSSSLOT ")
}
