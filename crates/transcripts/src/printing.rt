ghost use Rattle.std.specs.Prelude.{◌≡◌, ◌<◌, ◌≤◌, ◌+◌, ◌++◌, ◌∷◌, [], ℕ, true, not, length, map, replicate};
ghost use Rattle.std.specs.Prelude.{slice_index, vec_capacity, vec_len, IfOk, OnOk};
ghost use Rattle.std.specs.List.{count_by, prefix_len};
ghost use Rattle.std.specs.Simd.Lanes.{chunk, mask_l};
ghost use Rattle.hex.specs.Hex.{encode_lower};
ghost use Rattle.resp2_wire.specs.View.{tree, trees};
ghost use Rattle.transcripts.specs.Printing.{line, shown_byte, shown_bytes, after_space, bulk_text, shown};
ghost use Rattle.transcripts.specs.Printing.{all_shown, stands_for_itself};

use hex::encode_to_slice;
use itoa::Buffer;
use resp2_wire::Reply;
use std::alloc::AllocError;
use std::simd::prelude::*;

/// Prints a reply as a script's output shows it, each line after so many spaces.
#[cycle(printing)]
pub fn print_reply(printed: &mut Vec<u8>, indent: usize, reply: &Reply) -> Result<(), AllocError>
    ensures { OnOk result (printed.new.items ≡ printed.old.items ++ shown indent (tree reply.now)) }
{
    match reply {
        Reply::Simple(text) => print_text(printed, indent, b'+', text.get()),
        Reply::Error(text) => print_text(printed, indent, b'-', text.get()),
        Reply::Number(number) => {
            let mut buffer = Buffer::new();
            print_text(printed, indent, b':', buffer.format(*number).as_bytes())
        }
        Reply::Bulk(text) => print_bulk(printed, indent, text.get()),
        Reply::Null => print_text(printed, indent, b'$', b"-1"),
        Reply::NullArray => print_text(printed, indent, b'*', b"-1"),
        Reply::Array(list) => {
            let replies = list.get();
            let mut buffer = Buffer::new();
            print_text(
                printed,
                indent,
                b'*',
                buffer.format(replies.len()).as_bytes(),
            )?;
            print_replies(printed, deeper(indent)?, replies)
        }
    }
}

#[cycle(printing)]
fn print_replies(printed: &mut Vec<u8>, indent: usize, replies: &[Reply]) -> Result<(), AllocError>
    ensures { OnOk result (printed.new.items ≡ printed.old.items ++ all_shown indent (trees replies.now)) }
{
    for reply in replies {
        print_reply(printed, indent, reply)?;
    }
    Ok(())
}

/// Two spaces more. A text that is too wide to be counted has no room in memory either.
fn deeper(indent: usize) -> Result<usize, AllocError>
    ensures { IfOk result (λ deeper. deeper ≡ indent + 2) }
{
    indent.checked_add(2).ok_or(AllocError)
}

fn print_text(printed: &mut Vec<u8>, indent: usize, mark: u8, text: &[u8]) -> Result<(), AllocError>
    ensures { OnOk result (printed.new.items ≡ printed.old.items ++ line indent mark text.now) }
{
    print_spaces(printed, indent)?;
    printed.push(mark)?;
    printed.extend_from_slice(text)?;
    printed.push(b'\n')?;
    Ok(())
}

fn print_spaces(printed: &mut Vec<u8>, count: usize) -> Result<(), AllocError>
    ensures { OnOk result (printed.new.items ≡ printed.old.items ++ replicate count 32) }
{
    for _ in 0..count {
        printed.push(b' ')?;
    }
    Ok(())
}

/// The length, and after a space the bytes if there are any.
pub fn print_bulk(printed: &mut Vec<u8>, indent: usize, bytes: &[u8]) -> Result<(), AllocError>
    ensures { OnOk result (printed.new.items ≡ printed.old.items ++ line indent 36 (bulk_text bytes.now)) }
{
    print_spaces(printed, indent)?;
    printed.push(b'$')?;
    let mut buffer = Buffer::new();
    printed.extend_from_slice(buffer.format(bytes.len()).as_bytes())?;
    print_after_space(printed, bytes)?;
    printed.push(b'\n')?;
    Ok(())
}

fn print_after_space(printed: &mut Vec<u8>, bytes: &[u8]) -> Result<(), AllocError>
    ensures { OnOk result (printed.new.items ≡ printed.old.items ++ after_space bytes.now) }
{
    if bytes.is_empty() {
        return Ok(());
    }
    printed.push(b' ')?;
    print_bytes(printed, bytes)
}

/// Each byte as it is shown in a bulk. A short text goes byte by byte, and pays for nothing else.
pub fn print_bytes(printed: &mut Vec<u8>, bytes: &[u8]) -> Result<(), AllocError>
    ensures { OnOk result (printed.new.items ≡ printed.old.items ++ shown_bytes bytes.now) }
{
    if bytes.len() >= 16 {
        return print_long(printed, bytes);
    }
    for byte in bytes {
        print_byte(printed, *byte)?;
    }
    Ok(())
}

/// Each byte of a longer text. Those at the front that stand for themselves are put together, and then the one after
/// them. Where they are very few, 16 bytes go one by one, since those that are escaped mostly stand close together.
#[inline(never)]
fn print_long(printed: &mut Vec<u8>, bytes: &[u8]) -> Result<(), AllocError>
    ensures { OnOk result (printed.new.items ≡ printed.old.items ++ shown_bytes bytes.now) }
{
    make_room(printed, bytes)?;
    let mut left = bytes;
    while left.len() >= 16 {
        let (plain, others) = left.split_at(plain_len(left));
        if plain.len() < 4 {
            let (group, others) = left.split_at(16);
            print_each(printed, group)?;
            left = others;
        } else {
            print_plain(printed, plain)?;
            left = print_first(printed, others)?;
        }
    }
    print_each(printed, left)
}

/// Makes room for all of the text, and for one byte after it, as a line's end is often next. How much that is is
/// counted only where there is too little room even if nothing is escaped.
fn make_room(printed: &mut Vec<u8>, text: &[u8]) -> Result<(), AllocError>
    ensures items { printed.new.items ≡ printed.old.items }
    ensures room { OnOk result (vec_len printed.new + length text.now < vec_capacity printed.new) }
{
    if printed.capacity() - printed.len() > text.len() {
        return Ok(());
    }
    let more = escaped_count(text).saturating_mul(3);
    let needed = text.len().saturating_add(more);
    printed.reserve(needed.saturating_add(1))
}

/// How many of the bytes do not stand for themselves.
fn escaped_count(bytes: &[u8]) -> usize
    ensures { result ≡ count_by (λ b. not (stands_for_itself b)) bytes.now }
{
    let mut count = 0;
    for byte in bytes {
        if !stands_for_itself(*byte) {
            count += 1;
        }
    }
    count
}

/// Bytes that stand for themselves: a few one by one, and more at once.
fn print_plain(printed: &mut Vec<u8>, plain: &[u8]) -> Result<(), AllocError>
    ensures { OnOk result (printed.new.items ≡ printed.old.items ++ plain.now) }
{
    if plain.len() >= 16 {
        return printed.extend_from_slice(plain);
    }
    for byte in plain {
        printed.push(*byte)?;
    }
    Ok(())
}

/// The first of the bytes, if there is one, and those after it.
fn print_first<'a>(printed: &mut Vec<u8>, bytes: &'a [u8]) -> Result<&'a [u8], AllocError>
    ensures printed { IfOk result (λ rest. printed.new.items ++ shown_bytes rest.now
        ≡ printed.old.items ++ shown_bytes bytes.now) }
    ensures within { IfOk result (λ rest. length rest.now ≤ length bytes.now) }
{
    let Some((first, rest)) = bytes.split_first() else {
        return Ok(bytes);
    };
    print_byte(printed, *first)?;
    Ok(rest)
}

/// How many bytes at the front stand for themselves: 16 are looked at together, and the last few one by one.
fn plain_len(bytes: &[u8]) -> usize
    ensures value { result ≡ prefix_len stands_for_itself bytes.now }
    ensures within { result ≤ length bytes.now }
{
    let mut start = 0;
    while bytes.len() - start >= 16 {
        let count = plain_len_of_16(bytes, start);
        if count < 16 {
            return start + count;
        }
        start += 16;
    }
    plain_len_from(bytes, start)
}

/// How many of the 16 bytes from this place on stand before the first that does not stand for itself.
fn plain_len_of_16(bytes: &[u8], start: usize) -> usize
    requires { start + 16 ≤ length bytes.now }
    ensures { result ≡ prefix_len stands_for_itself (chunk start 16 bytes.now) }
{
    let escaped = escaped_of_16(u8x16::from_slice(&bytes[start..]));
    if escaped == 0 {
        16
    } else {
        escaped.trailing_zeros() as usize
    }
}

/// A bit for each of the 16 bytes, set where the byte does not stand for itself.
fn escaped_of_16(group: u8x16) -> u64
    ensures { result ≡ mask_l (map (λ b. not (stands_for_itself b)) group) }
{
    let below = group.simd_lt(u8x16::splat(0x21));
    let above = group.simd_gt(u8x16::splat(0x7e));
    let backslash = group.simd_eq(u8x16::splat(b'\\'));
    (below | above | backslash).to_bitmask()
}

/// How many bytes at the front stand for themselves, where all before this place do.
fn plain_len_from(bytes: &[u8], start: usize) -> usize
    requires within { start ≤ length bytes.now }
    requires passed { (k : ℕ) → k < start → stands_for_itself (slice_index bytes.now k) ≡ true }
    ensures value { result ≡ prefix_len stands_for_itself bytes.now }
    ensures within { result ≤ length bytes.now }
{
    for place in start..bytes.len() {
        if !stands_for_itself(bytes[place]) {
            return place;
        }
    }
    bytes.len()
}

/// Whether the byte is a visible character and not the backslash.
fn stands_for_itself(byte: u8) -> bool
    ensures { result ≡ stands_for_itself byte }
{
    (0x21..=0x7e).contains(&byte) && byte != b'\\'
}

/// Each byte as it is shown in a bulk, one by one.
fn print_each(printed: &mut Vec<u8>, bytes: &[u8]) -> Result<(), AllocError>
    ensures { OnOk result (printed.new.items ≡ printed.old.items ++ shown_bytes bytes.now) }
{
    for byte in bytes {
        print_byte(printed, *byte)?;
    }
    Ok(())
}

/// A byte of a bulk: `\xHH` where it is no visible character or the backslash. The test of `stands_for_itself` is
/// written out, since a byte that passes is put with fewer steps so.
fn print_byte(printed: &mut Vec<u8>, byte: u8) -> Result<(), AllocError>
    ensures { OnOk result (printed.new.items ≡ printed.old.items ++ shown_byte byte) }
{
    if (0x21..=0x7e).contains(&byte) && byte != b'\\' {
        printed.push(byte)?;
        return Ok(());
    }
    let [high, low] = hex_of(byte);
    printed.extend_from_slice(&[b'\\', b'x', high, low])
}

/// The two digits of the byte, in lower case.
fn hex_of(byte: u8) -> [u8; 2]
    ensures { result ≡ encode_lower (byte ∷ []) }
{
    let mut digits = [0; 2];
    match encode_to_slice([byte].as_slice(), digits.as_mut_slice()) {
        Ok(()) => digits,
        Err(_) => unreachable!(),
    }
}
