/// By what a plan is verified: its version, and how many nodes the cluster has.
#[derive(Clone, Copy)]
pub(crate) struct Rules {
    pub(crate) version: u8,
    pub(crate) nodes: u8,
}
