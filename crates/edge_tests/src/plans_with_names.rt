//! Tests of plans that list their nodes with names.

use byte_texts::Memory;
use plan_language::{ParseCause, parse_any, print};
use plan_runner::parse;

/// Texts that are read by `parse_any` and written back as they are, with how many commands they are among twelve nodes.
const PLANS: [(&[u8], u32); 5] = [
    (b"reshard-plan 4\nend\n", 0),
    (
        b"reshard-plan 4\nnode n2 07c37dfeb235213a872192d90877d0cd55635b91\n\
        node n11 e7d1eecce10fd6bb5eb35b9f99a514335d9ba9ca\nmove 3300-3301 from n2 to n11 by 10\nend\n",
        30,
    ),
    (
        b"reshard-plan 5\nnode n0 0000000000000000000000000000000000000000\n\
        node n254 ffffffffffffffffffffffffffffffffffffffff\nsetslot 7 stable at n254\n\
        setslot 16383 node n254 at n0\nend\n",
        2,
    ),
    (
        b"reshard-plan 4\nnode n9 0000000000000000000000000000000000000009\nend\n",
        0,
    ),
    (b"reshard-plan 1\nmove 3300 from n0 to n7 by 10\nend\n", 15),
];

/// Texts that are no plan, each with the cause and the line of its fault.
const NO_PLANS: [(&[u8], ParseCause, u32); 13] = [
    (b"reshard-plan 6\nend\n", ParseCause::Header, 1),
    (b"reshard-plan 04\nend\n", ParseCause::Header, 1),
    (b"reshard-plan 4\n", ParseCause::NoEnd, 2),
    (b"reshard-plan 4\nnode n0\nend\n", ParseCause::Verb, 2),
    (
        b"reshard-plan 4\nnode n255 0000000000000000000000000000000000000000\nend\n",
        ParseCause::Node,
        2,
    ),
    (
        b"reshard-plan 4\nnode n08 0000000000000000000000000000000000000000\nend\n",
        ParseCause::Node,
        2,
    ),
    (
        b"reshard-plan 4\nnode n8 000000000000000000000000000000000000000\nend\n",
        ParseCause::Name,
        2,
    ),
    (
        b"reshard-plan 4\nnode n8 000000000000000000000000000000000000000F\nend\n",
        ParseCause::Name,
        2,
    ),
    (
        b"reshard-plan 4\nnode n8 0000000000000000000000000000000000000000\n\
        node n8 0000000000000000000000000000000000000001\nend\n",
        ParseCause::Order,
        3,
    ),
    (
        b"reshard-plan 4\nnode n8 0000000000000000000000000000000000000000\n\
        node n9 0000000000000000000000000000000000000000\nend\n",
        ParseCause::SameName,
        3,
    ),
    (
        b"reshard-plan 4\nnode n8 0000000000000000000000000000000000000000\n\
        move 3300 from n8 to n9 by 10\nend\n",
        ParseCause::Unlisted,
        3,
    ),
    (
        b"reshard-plan 4\nnode n8 0000000000000000000000000000000000000000\n\
        setslot 7 stable at n8\nend\n",
        ParseCause::Verb,
        3,
    ),
    (
        b"reshard-plan 1\nnode n0 0000000000000000000000000000000000000000\nend\n",
        ParseCause::Verb,
        2,
    ),
];

#[test]
fn plans_with_names_are_read_and_written(rt: HostRuntime) -> Result<(), Memory> {
    for (text, commands) in PLANS {
        match parse_any(rt.alloc(), text) {
            Ok(plan) => {
                assert_eq!(rt; plan.expanded_len(12), commands);
                let written = print(rt.alloc(), &plan)?;
                assert!(rt; written.as_slice() == text);
            }
            Err(_) => assert!(rt; false),
        }
    }
    Ok(())
}

#[test]
fn texts_that_are_no_plans_with_names(rt: HostRuntime) {
    for (text, cause, line) in NO_PLANS {
        let read = parse_any(rt.alloc(), text);
        assert!(rt; matches!(read, Err(fault) if fault.cause == cause && fault.line == line));
    }
}

#[test]
fn names_are_no_part_of_other_plans(rt: HostRuntime) {
    for version in [
        b"reshard-plan 4\nend\n".as_slice(),
        b"reshard-plan 5\nend\n".as_slice(),
    ] {
        let read = parse(rt.alloc(), version);
        assert!(rt;
            matches!(read, Err(fault) if fault.cause == ParseCause::Header && fault.line == 1)
        );
    }
}
