//! Plans over many keys, several in a row: by 10 and by 100, of slots that move twice, and of open slots that are gone
//! on with.
use crate::filler::Filler;
use crate::random::Random;
use crate::rehearsing::played;
use crate::users::{put_key, slot_of_user};
use crate::words::put;
use std::alloc::{AllocError, Global};

/// The slots that move are the first ones, which the first of eight nodes owns.
const SLOTS: u64 = 2_048;

/// The keys of each user.
const KINDS: [&[u8]; 8] = [
    b"name",
    b"mail",
    b"phone",
    b"town",
    b"street",
    b"birthday",
    b"theme",
    b"token",
];

/// After which plans the keys are asked for.
const PLANS: &[u8] = b"reshard-plan 1\nmove 0-2047 from n0 to n1 by 10\nend\nrun\n\
    reshard-plan 1\nmove 0-2047 from n1 to n2 by 100\nend\nrun\n\
    reshard-plan 2\nmove 0-1023 from n2 to n3 by 10\nmove 0-1023 from n3 to n4 by 100\n\
    move 1024-2047 from n2 to n4 by 10\nend\nrun\n\
    setslot 7 importing n4 at n5\nsetslot 7 migrating n5 at n4\n\
    setslot 8 importing n4 at n5\nsetslot 8 migrating n5 at n4\n\
    resume by 10\nrun\n\
    reshard-plan 1\nmove 9-2047 from n4 to n6 by 10\nend\n";

/// Plays a script in which about so many keys are set, and plans then move all of them.
pub fn many_keys(alloc: Global, keys: u64, seed: u64) -> anyhow::Result<u64> {
    let mut random = Random::new(seed);
    let filler = Filler::new(alloc, &mut random)?;
    let mut script = Vec::new(alloc);
    script.extend_from_slice(b"cluster 8\n")?;
    let users = movers(alloc, &mut random, keys / 10 + 1)?;
    for user in users.as_slice() {
        put_user(&mut script, &filler, &mut random, *user)?;
    }
    script.extend_from_slice(PLANS)?;
    for _ in 0..keys / 20 {
        script.extend_from_slice(b"step\n")?;
    }
    script.extend_from_slice(b"abandon\nresume by 100\nrun\n")?;
    for user in users.as_slice() {
        put_question(&mut script, *user)?;
    }
    Ok(played(alloc, script.as_slice()))
}

/// So many users whose keys have slots that move.
fn movers(alloc: Global, random: &mut Random, count: u64) -> Result<Vec<u64>, AllocError> {
    let mut users = Vec::new(alloc);
    let first = random.next() % 1_000_000_000;
    for number in 0..count.saturating_mul(40) {
        let user = first.wrapping_add(number);
        if users.len() as u64 == count {
            break;
        }
        if u64::from(slot_of_user(alloc, user)?.get()) < SLOTS {
            users.push(user)?;
        }
    }
    Ok(users)
}

/// Sets ten keys of the user: eight texts, a hash and a list.
fn put_user(
    script: &mut Vec<u8>,
    filler: &Filler,
    random: &mut Random,
    user: u64,
) -> Result<(), AllocError> {
    script.extend_from_slice(b"at n0 MSET")?;
    for kind in KINDS {
        script.push(b' ')?;
        put_key(script, user, kind)?;
        script.push(b' ')?;
        script.extend_from_slice(filler.usual(random))?;
    }
    script.extend_from_slice(b"\nat n0 HSET ")?;
    put_key(script, user, b"cart")?;
    for field in 0..random.below(6) + 1 {
        put(script, b" field:", field, b" ")?;
        script.extend_from_slice(filler.usual(random))?;
    }
    let name = if random.below(2) == 0 {
        b"RPUSH"
    } else {
        b"LPUSH"
    };
    script.extend_from_slice(b"\nat n0 ")?;
    script.extend_from_slice(name)?;
    script.push(b' ')?;
    put_key(script, user, b"log")?;
    for element in 0..random.below(6) + 1 {
        put(script, b" element:", element, b"")?;
    }
    script.push(b'\n')?;
    Ok(())
}

/// Asks the node that most keys end at for two of the user's.
fn put_question(script: &mut Vec<u8>, user: u64) -> Result<(), AllocError> {
    script.extend_from_slice(b"at n6 GET ")?;
    put_key(script, user, b"name")?;
    script.extend_from_slice(b"\nat n6 HGETALL ")?;
    put_key(script, user, b"cart")?;
    script.push(b'\n')?;
    Ok(())
}
