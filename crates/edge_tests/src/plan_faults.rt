//! Tests of the reading and the verifying of plans: which texts are none, and which plans are refused.
ghost use Rattle.std.specs.Prelude.{◌<◌};

use byte_texts::Memory;
use key_slots::{OwnerTable, Slot};
use plan_language::print;
use plan_runner::{CommandPlace, ParseCause, Plan, VerifyFault, parse, verify};
use std::alloc::Global;
use std::process::Abort;

/// Texts that are no plan, each with the cause and the line of its fault.
const NO_PLANS: &[(&[u8], ParseCause, u32)] = &[
    (b"", ParseCause::NoEnd, 1),
    (b"reshard-plan 1", ParseCause::NoEnd, 1),
    (b"reshard-plan 9\nend\n", ParseCause::Header, 1),
    (b"reshard-plan 1\n", ParseCause::NoEnd, 2),
    (b"reshard-plan 1\nend\n\n", ParseCause::Verb, 3),
    (
        b"reshard-plan 2\nsetslot 7 stable at n1\nend\n",
        ParseCause::Verb,
        2,
    ),
    (
        b"reshard-plan 1\nmove 7 from n0 to n1 by 10 \nend\n",
        ParseCause::Verb,
        2,
    ),
    (
        b"reshard-plan 1\nmove 07 from n9 to n1 by 0\nend\n",
        ParseCause::Slot,
        2,
    ),
    (
        b"reshard-plan 1\nmove 16384 from n0 to n1 by 10\nend\n",
        ParseCause::Slot,
        2,
    ),
    (
        b"reshard-plan 1\nmove 7 from n8 to n1 by 0\nend\n",
        ParseCause::Node,
        2,
    ),
    (
        b"reshard-plan 1\nmove 7-7 from n0 to n1 by 1001\nend\n",
        ParseCause::Count,
        2,
    ),
    (
        b"reshard-plan 1\nmove 7-7 from n0 to n1 by 10\nend\n",
        ParseCause::Range,
        2,
    ),
];

#[test]
fn texts_that_are_no_plans(rt: HostRuntime) {
    for &(text, cause, line) in NO_PLANS {
        let read = parse(rt.alloc(), text);
        assert!(rt; matches!(read, Err(fault) if fault.cause == cause && fault.line == line));
    }
}

#[test]
fn plans_of_three_nodes(rt: HostRuntime) -> Result<(), Memory> {
    let owners = OwnerTable::even(rt.alloc(), 3, 3)?;
    let cases: [(&[u8], u32, Option<VerifyFault>); 7] = [
        (b"reshard-plan 1\nend\n", 0, None),
        (
            b"reshard-plan 1\nmove 3300 from n0 to n1 by 10\nend\n",
            6,
            None,
        ),
        (
            b"reshard-plan 1\nmove 3300 from n1 to n2 by 10\nend\n",
            6,
            Some(VerifyFault::NotOwner(place(3300, 1))),
        ),
        (
            b"reshard-plan 1\nmove 5460-5461 from n0 to n1 by 10\nend\n",
            12,
            Some(VerifyFault::NotOwner(place(5461, 7))),
        ),
        (
            b"reshard-plan 1\nmove 3300 from n0 to n1 by 10\nmove 3300 from n1 to n0 by 10\nend\n",
            12,
            Some(VerifyFault::MovedTwice(place(3300, 7))),
        ),
        (
            b"reshard-plan 2\nmove 3300 from n0 to n1 by 10\nmove 3300 from n1 to n0 by 10\nend\n",
            12,
            None,
        ),
        (
            b"reshard-plan 2\nsetslot 3300 importing n0 at n1\nend\n",
            1,
            Some(VerifyFault::LeftOpen(place(3300, 1))),
        ),
    ];
    for (text, length, wanted) in cases {
        let plan = read(rt.alloc(), text);
        assert!(rt; plan.expanded_len(3) == length);
        assert!(rt; fault_of(plan, &owners) == wanted);
    }
    Ok(())
}

#[test]
fn a_plan_is_copied_and_printed(rt: HostRuntime) -> Result<(), Memory> {
    let text: &[u8] = b"reshard-plan 1\nmove 7 from n0 to n1 by 10\nend\n";
    let copy = read(rt.alloc(), text).try_copy()?;
    assert!(rt; print(rt.alloc(), &copy)?.as_slice() == text);
    Ok(())
}

fn read(alloc: Global, text: &[u8]) -> Plan {
    match parse(alloc, text) {
        Ok(plan) => plan,
        Err(_) => Plan::empty(alloc),
    }
}

fn fault_of(plan: Plan, owners: &OwnerTable) -> Option<VerifyFault> {
    match verify(plan, owners) {
        Ok(_) => None,
        Err((plan, fault)) => {
            drop(plan);
            Some(fault)
        }
    }
}

fn place(slot: u16, command: u32) -> CommandPlace
    requires { slot < 16384 }
{
    CommandPlace {
        slot: Slot::of(slot),
        command,
    }
}
