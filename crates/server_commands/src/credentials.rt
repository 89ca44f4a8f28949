use byte_texts::Text;

/// What a connection has to show before a server does anything for it (the page of AUTH). There is no way to print it.
#[derive(Drop)]
pub struct Credentials {
    /// The name of an ACL's user; without one the server asks for its own password, the default user's.
    pub user: Option<Text>,
    pub password: Text,
}
