ghost use Rattle.resp2_wire.specs.Stability.{DecodedRequestsAreStable};
ghost use Rattle.resp2_wire.specs.Stream.{DecodingIgnoresChunking, FaultsArePermanent};
ghost use Rattle.resp2_wire.specs.RequestLaws.{RequestDecodingInvertsEncoding, RequestEncodingIsCanonical};
ghost use Rattle.resp2_wire.specs.ReplyLaws.{DecodedRepliesAreStable, DecodingInvertsEncoding, EncodingIsCanonical};

/// A request and a fault at the beginning of some bytes stay, whatever bytes follow.
pub fn decoded_requests_are_stable()
    ensures { DecodedRequestsAreStable }
{}

/// WireExact: what is given of a stream does not depend on how it was cut.
pub fn decoding_ignores_chunking()
    ensures { DecodingIgnoresChunking }
{}

/// A fault is reported ever after, whatever is fed.
pub fn faults_are_permanent()
    ensures { FaultsArePermanent }
{}

/// A reply and a fault at the beginning of some bytes stay, whatever bytes follow.
pub fn decoded_replies_are_stable()
    ensures { DecodedRepliesAreStable }
{}

/// What is written of a reply is read again, whatever follows.
pub fn decoding_inverts_encoding()
    ensures { DecodingInvertsEncoding }
{}

/// What is read as a reply is its spelling, each byte of it.
pub fn encoding_is_canonical()
    ensures { EncodingIsCanonical }
{}

/// The array of a request's words is read as that request, whatever follows.
pub fn request_decoding_inverts_encoding()
    ensures { RequestDecodingInvertsEncoding }
{}

/// What is read as a nonempty request is the array of its words, each byte of it.
pub fn request_encoding_is_canonical()
    ensures { RequestEncodingIsCanonical }
{}
