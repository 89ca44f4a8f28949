use byte_texts::{Text, TextList};
use resp2_wire::{Decoder, Reply, ReplyList, Request, decode_reply, encode};
use std::alloc::Global;
use std::process::Abort;
use std::test::Fail;

fn is_request(rt: &impl Abort, request: &Request, wanted: &[&[u8]]) {
    let words = request.get();
    assert!(rt; words.len() == wanted.len());
    for (word, text) in words.iter().zip(wanted) {
        assert!(rt; word.get() == *text);
    }
}

/// The request of the two parts, between which nothing else is to be read.
fn request_of_parts(alloc: Global, front: &[u8], rest: &[u8]) -> Result<Request, Fail> {
    let mut decoder = Decoder::new(alloc);
    decoder.feed(front)?;
    let is_early = decoder.next()?.is_some();
    decoder.feed(b"")?;
    decoder.feed(rest)?;
    let request = decoder.next()?.ok_or("a request is missing")?;
    if is_early || decoder.next()?.is_some() || !decoder.is_empty() {
        return Err(Fail::from("one request and no more is wanted"));
    }
    Ok(request)
}

#[test]
fn one_request_at_every_cut(rt: HostRuntime) -> Result<(), Fail> {
    let stream = b"*2\r\n$3\r\nGET\r\n$1\r\na\r\n";
    for cut in 0..stream.len() {
        let (front, rest) = stream.split_at(cut);
        let request = request_of_parts(rt.alloc(), front, rest)?;
        is_request(&rt, &request, &[b"GET", b"a"]);
        let copy = request.try_copy(rt.alloc())?;
        is_request(&rt, &Request::from_vec(copy.into_vec()), &[b"GET", b"a"]);
    }
    Ok(())
}

const FAULTS_OF_REQUESTS: &[(&[u8], &str)] = &[
    (b"*1025\r\n", "5 TooLarge"),
    (b"*99999999999999999999\r\n", "5 TooLarge"),
    (b"*12345678901234567890123", "2 BadCount"),
    (b"*-0\r\n", "2 BadCount"),
    (b"*1\r\n+", "3 NotBulk"),
    (b"*1\r\n$-1\r\n", "4 BadLength"),
    (b"*1\r\n$03\r\n", "4 BadLength"),
    (b"*1\r\n$1048577\r\n", "5 TooLarge"),
    (b"*1\r\n$4\r\nPINGxx", "6 MissingCrLf"),
    (b"*1\rx", "6 MissingCrLf"),
    (b"GET a\r\n", "1 NotArray"),
];

/// A decoder that was fed the bytes, so many at a time.
fn fed(alloc: Global, bytes: &[u8], size: usize) -> Result<Decoder, Fail> {
    let mut decoder = Decoder::new(alloc);
    for piece in bytes.chunks(size.max(1)) {
        decoder.feed(piece)?;
    }
    Ok(decoder)
}

/// The text of the fault that the decoder finds.
fn fault_of(alloc: Global, decoder: &mut Decoder) -> Result<String, Fail> {
    match decoder.next() {
        Ok(_) => Err(Fail::from("no fault")),
        Err(fault) => Ok(format!(in alloc; "{fault}")?),
    }
}

/// A fault is the same in each cutting, and stays, whatever is fed after it.
#[test]
fn faults_of_requests(rt: HostRuntime) -> Result<(), Fail> {
    let alloc = rt.alloc();
    for (bytes, wanted) in FAULTS_OF_REQUESTS {
        for size in [1, 7, 40] {
            let mut decoder = fed(alloc, bytes, size)?;
            assert!(rt; fault_of(alloc, &mut decoder)?.as_str() == *wanted);
            decoder.feed(b"*1\r\n$1\r\na\r\n")?;
            assert!(rt; fault_of(alloc, &mut decoder)?.as_str() == *wanted);
        }
    }
    Ok(())
}

/// A status line of so many letters.
fn status_line(alloc: Global, letters: usize) -> Result<Vec<u8>, Fail> {
    let mut line = vec![in alloc; b'a'; letters]?;
    line.insert(0, b'+')?;
    line.extend_from_slice(b"\r\n")?;
    Ok(line)
}

const REPLIES: &[&[u8]] = &[
    b"+\r\n",
    b"-ERR no such key\r\n",
    b":-9223372036854775808\r\n",
    b":9223372036854775807\r\n",
    b"$0\r\n\r\n",
    b"$-1\r\n",
    b"*-1\r\n",
    b"*3\r\n:0\r\n*2\r\n$3\r\na\r\n\r\n*0\r\n+OK\r\n",
    b"*1\r\n*1\r\n*1\r\n*1\r\n*1\r\n*1\r\n*1\r\n*1\r\n:-7\r\n",
];

/// Whether the bytes are one reply, no prefix of them is one, and it is written as the same bytes.
fn is_read_and_written(alloc: Global, bytes: &[u8]) -> Result<bool, Fail> {
    for cut in 0..bytes.len() {
        if decode_reply(alloc, &bytes[..cut])?.is_some() {
            return Ok(false);
        }
    }
    let (reply, length) = decode_reply(alloc, bytes)?.ok_or("no reply")?;
    Ok(length == bytes.len() && encode(alloc, &reply)?.as_slice() == bytes)
}

#[test]
fn replies_both_ways(rt: HostRuntime) -> Result<(), Fail> {
    let longest = status_line(rt.alloc(), 1024)?;
    assert!(rt; is_read_and_written(rt.alloc(), longest.as_slice())?);
    for bytes in REPLIES {
        assert!(rt; is_read_and_written(rt.alloc(), bytes)?);
    }
    Ok(())
}

const FAULTS_OF_REPLIES: &[(&[u8], u8, &str)] = &[
    (
        b"*1\r\n*1\r\n*1\r\n*1\r\n*1\r\n*1\r\n*1\r\n*1\r\n*",
        5,
        "TooLarge",
    ),
    (b":007\r\n", 2, "BadCount"),
    (b":-0\r\n", 2, "BadCount"),
    (b":+1\r\n", 2, "BadCount"),
    (b":9223372036854775808\r\n", 2, "BadCount"),
    (b":-9223372036854775809\r\n", 2, "BadCount"),
    (b"+a\n", 6, "MissingCrLf"),
    (b"*-2\r\n", 2, "BadCount"),
    (b"*2097153\r\n", 5, "TooLarge"),
    (b"$-2\r\n", 4, "BadLength"),
    (b"$1048577\r\n", 5, "TooLarge"),
    (b"x", 8, "BadMark"),
];

/// Whether the bytes have the fault of this number and name.
fn has_fault(alloc: Global, bytes: &[u8], number: u8, name: &str) -> bool {
    match decode_reply(alloc, bytes) {
        Ok(_) => false,
        Err(fault) => fault.number() == number && fault.name() == name,
    }
}

#[test]
fn faults_of_replies(rt: HostRuntime) -> Result<(), Fail> {
    let long = status_line(rt.alloc(), 1025)?;
    assert!(rt; has_fault(rt.alloc(), long.as_slice(), 5, "TooLarge"));
    for (bytes, number, name) in FAULTS_OF_REPLIES {
        assert!(rt; has_fault(rt.alloc(), bytes, *number, name), "at {name}");
    }
    Ok(())
}

/// A reply of each kind but an array.
fn kinds(alloc: Global) -> Result<ReplyList, Fail> {
    let mut replies = Vec::new(alloc);
    replies.push(Reply::Simple(Text::from_slice(alloc, b"OK")?))?;
    replies.push(Reply::Error(Text::from_slice(alloc, b"ERR")?))?;
    replies.push(Reply::Number(-1))?;
    replies.push(Reply::Bulk(Text::empty(alloc)))?;
    replies.push(Reply::Null)?;
    replies.push(Reply::NullArray)?;
    Ok(ReplyList::from_vec(replies))
}

/// How many replies the array has, or none.
fn array_len(reply: &Reply) -> usize {
    match reply {
        Reply::Array(replies) => replies.get().len(),
        _ => 0,
    }
}

#[test]
fn a_reply_of_each_kind_is_copied(rt: HostRuntime) -> Result<(), Fail> {
    let alloc = rt.alloc();
    let list = kinds(alloc)?;
    let reply = Reply::Array(list.try_copy(alloc)?);
    assert!(rt; array_len(&reply.try_copy(alloc)?) == 6);
    assert!(rt; list.into_vec().len() == 6);
    Ok(())
}

fn replies(alloc: Global) -> Result<Reply, Fail> {
    let mut texts = TextList::new(alloc);
    texts.push(Text::from_slice(alloc, b"x")?)?;
    let mut replies = Vec::new(alloc);
    replies.push(Reply::simple(alloc, b"OK")?)?;
    replies.push(Reply::error(alloc, b"ERR no")?)?;
    replies.push(Reply::bulk(alloc, b"b")?)?;
    replies.push(Reply::bulk_or_null(alloc, None)?)?;
    replies.push(Reply::count(7))?;
    replies.push(Reply::truth(true))?;
    replies.push(Reply::bulk_array(alloc, texts)?)?;
    Ok(Reply::array(replies))
}

#[test]
fn replies_of_each_kind_are_made(rt: HostRuntime) -> Result<(), Fail> {
    let alloc = rt.alloc();
    let reply = replies(alloc)?;
    if !reply.is_within_limits() {
        return Err(Fail::from("beyond the limits"));
    }
    let bytes = encode(alloc, &reply)?;
    assert!(rt;
        bytes.as_slice()
            == b"*7\r\n+OK\r\n-ERR no\r\n$1\r\nb\r\n$-1\r\n:7\r\n:1\r\n*1\r\n$1\r\nx\r\n".as_slice()
    );
    Ok(())
}

#[test]
fn a_line_has_no_line_end(rt: HostRuntime) -> Result<(), Fail> {
    assert!(rt; !Reply::simple(rt.alloc(), b"two\nlines")?.is_within_limits());
    Ok(())
}
