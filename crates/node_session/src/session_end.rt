use resp2_wire::WireFault;

/// How a session ended.
#[derive(Clone, Copy, Debug, PartialEq, Eq)]
pub enum SessionEnd {
    /// The input ended between requests.
    Closed,
    /// The input ended inside a request, to which nothing is written.
    Cut,
    /// The input is no list of requests. The line of the fault is the last one written.
    Protocol(WireFault),
    /// A read failed, or the reads of one session were used up.
    ReadFailed,
    /// A write failed.
    WriteFailed,
    /// The client sent QUIT where that is heard. Its reply is the last one written.
    Quit,
    /// Memory ran out as a request was read or an answer was encoded.
    Memory,
}
