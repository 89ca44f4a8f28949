//! A rehearsed day: what clients did, with plans between, and the question whether the clients were honest.
ghost use Rattle.std.specs.Prelude.{◌<◌};

use crate::filler::Filler;
use crate::random::Random;
use crate::rehearsing::played;
use crate::users::{homes, put_key};
use crate::words::{put, put_number};
use key_slots::{NodeId, OwnerTable};
use std::alloc::{AllocError, Global};

const NODES: u8 = 6;

/// How many users there are.
const USERS: u64 = 16_384;

/// A plan takes a step after so many lines of clients.
const LINES_A_STEP: u64 = 30;

/// The script of a day, and what the next line is made with.
#[derive(Drop)]
struct Day {
    script: Vec<u8>,
    random: Random,
    filler: Filler,
    homes: Vec<NodeId>,
}

/// Plays a day of so many lines.
pub fn play_day(alloc: Global, lines: u64, seed: u64) -> anyhow::Result<u64> {
    let owners = OwnerTable::even(alloc, NODES, NODES)?;
    let mut random = Random::new(seed);
    let filler = Filler::new(alloc, &mut random)?;
    let mut day = Day {
        script: Vec::new(alloc),
        random,
        filler,
        homes: homes(alloc, &owners, USERS)?,
    };
    day.write(lines)?;
    Ok(played(alloc, day.script.as_slice()))
}

impl Day {
    /// A quarter of the lines before the first plan, another beside it, one beside a plan that is given up and gone on
    /// with, and one after all.
    fn write(&mut self, lines: u64) -> Result<(), AllocError> {
        self.script.extend_from_slice(b"cluster 6\n")?;
        let part = lines / 4;
        self.calls(part)?;
        self.follow_asks(part / 16)?;
        let steps = part / LINES_A_STEP;
        let slots = (steps / 9).saturating_add(1);
        self.plan(
            b"reshard-plan 1\nmove 100-",
            slots.saturating_add(100),
            b" from n0 to n1 by 10\nend\n",
        )?;
        self.steps(steps)?;
        self.script.extend_from_slice(b"run\n")?;
        self.plan(
            b"reshard-plan 1\nmove 6000-",
            slots.saturating_add(6_000),
            b" from n2 to n3 by 10\nend\n",
        )?;
        self.steps(steps)?;
        self.script
            .extend_from_slice(b"abandon\nresume by 100\nrun\n")?;
        self.calls(part)?;
        self.script.extend_from_slice(b"honest\n")
    }

    fn plan(&mut self, before: &[u8], last: u64, after: &[u8]) -> Result<(), AllocError> {
        put(&mut self.script, before, last.min(8_000), after)
    }

    /// A plan's steps, each after some lines of clients.
    fn steps(&mut self, steps: u64) -> Result<(), AllocError> {
        for _ in 0..steps {
            self.calls(LINES_A_STEP)?;
            self.script.extend_from_slice(b"step\n")?;
        }
        Ok(())
    }

    fn calls(&mut self, count: u64) -> Result<(), AllocError> {
        for _ in 0..count {
            self.call()?;
        }
        Ok(())
    }

    /// The slot of `b` is opened, and a client follows the ASK for each key of it that the source does not have.
    fn follow_asks(&mut self, count: u64) -> Result<(), AllocError> {
        self.script.extend_from_slice(
            b"setslot 3300 importing n1 at n2\nsetslot 3300 migrating n2 at n1\n",
        )?;
        for number in 0..count {
            put(&mut self.script, b"at n1 SET {b}:cart:", number, b" none\n")?;
            put(&mut self.script, b"asking n2 SET {b}:cart:", number, b" ")?;
            self.script
                .extend_from_slice(self.filler.usual(&mut self.random))?;
            put(
                &mut self.script,
                b"\nat n1 GET {b}:cart:",
                number / 2,
                b"\n",
            )?;
            put(
                &mut self.script,
                b"asking n2 GET {b}:cart:",
                number / 2,
                b"\n",
            )?;
        }
        self.script.extend_from_slice(b"resume by 10\nrun\n")
    }

    /// One line of a client, to the node that owned the user's keys in the morning, or now and then to another.
    fn call(&mut self) -> Result<(), AllocError> {
        let user = self.random.skewed();
        let home = match self.homes.as_slice().get(user as usize) {
            Some(node) => u64::from(node.get()),
            None => 0,
        };
        let strays = self.random.below(40) == 0;
        let node = if strays {
            self.random.below(u64::from(NODES))
        } else {
            home
        };
        put(&mut self.script, b"at n", node, b" ")?;
        let chance = self.random.below(1_000);
        if chance < 800 {
            self.text_call(user, chance)?;
        } else {
            self.collection_call(user, chance)?;
        }
        self.script.push(b'\n')?;
        Ok(())
    }

    fn text_call(&mut self, user: u64, chance: u64) -> Result<(), AllocError> {
        match chance {
            0..=449 => self.with_key(b"GET ", user, b"name"),
            450..=619 => self.set(b"SET ", user, b"name"),
            620..=659 => self.with_key(b"INCR ", user, b"visits"),
            660..=699 => self.several(b"MGET", user),
            700..=729 => self.set_two(user),
            730..=749 => self.several(b"DEL", user),
            750..=769 => self.with_key(b"EXISTS ", user, b"mail"),
            770..=789 => self.with_key(b"STRLEN ", user, b"name"),
            790..=798 => self.with_key(b"TYPE ", user, b"mail"),
            _ => self.script.extend_from_slice(b"CLUSTER SLOTS"),
        }
    }

    fn collection_call(&mut self, user: u64, chance: u64) -> Result<(), AllocError> {
        match chance {
            800..=829 => self.set_field(user),
            830..=864 => {
                self.with_key(b"HGET ", user, b"cart")?;
                let field = self.random.below(16);
                put(&mut self.script, b" field:", field, b"")
            }
            865..=874 => self.with_key(b"HGETALL ", user, b"cart"),
            875..=904 => self.set(b"LPUSH ", user, b"log"),
            905..=929 => self.with_key(b"RPOP ", user, b"log"),
            930..=939 => {
                self.with_key(b"LRANGE ", user, b"log")?;
                self.script.extend_from_slice(b" 0 9")
            }
            940..=969 => self.with_member(b"SADD ", user),
            970..=989 => self.with_member(b"SISMEMBER ", user),
            _ => self.with_member(b"SREM ", user),
        }
    }

    fn with_key(&mut self, name: &[u8], user: u64, kind: &[u8]) -> Result<(), AllocError> {
        self.script.extend_from_slice(name)?;
        put_key(&mut self.script, user, kind)
    }

    fn set(&mut self, name: &[u8], user: u64, kind: &[u8]) -> Result<(), AllocError> {
        self.with_key(name, user, kind)?;
        self.value()
    }

    fn value(&mut self) -> Result<(), AllocError> {
        self.script.push(b' ')?;
        self.script
            .extend_from_slice(self.filler.usual(&mut self.random))
    }

    fn several(&mut self, name: &[u8], user: u64) -> Result<(), AllocError> {
        self.script.extend_from_slice(name)?;
        for kind in [b"name".as_slice(), b"mail".as_slice(), b"phone".as_slice()] {
            self.script.push(b' ')?;
            put_key(&mut self.script, user, kind)?;
        }
        Ok(())
    }

    fn set_two(&mut self, user: u64) -> Result<(), AllocError> {
        self.set(b"MSET ", user, b"mail")?;
        self.set(b" ", user, b"phone")
    }

    fn set_field(&mut self, user: u64) -> Result<(), AllocError> {
        self.with_key(b"HSET ", user, b"cart")?;
        let field = self.random.below(16);
        put(&mut self.script, b" field:", field, b"")?;
        self.value()
    }

    fn with_member(&mut self, name: &[u8], user: u64) -> Result<(), AllocError> {
        self.with_key(name, user, b"tags")?;
        self.script.extend_from_slice(b" tag:")?;
        let member = self.random.skewed() % 64;
        put_number(&mut self.script, member)
    }
}
