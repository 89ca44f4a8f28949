//! Plans with names, by hand.
use byte_texts::{Memory, Text};
use cluster_inspection::{NamingFault, named_plan};
use key_slots::{NodeId, Slot};
use node_names::NodeNames;
use plan_language::{Line, Plan, print};
use server_commands::{Server, ServerBook};
use std::alloc::{AllocError, Global};
use std::test::Fail;

/// Three servers with names of digits, and the same where two have one name, or one has none.
const NAMES: [&str; 3] = [
    "00000000000000000000000000000000000000a0",
    "00000000000000000000000000000000000000b1",
    "00000000000000000000000000000000000000c2",
];

const TWICE: [&str; 3] = [
    "00000000000000000000000000000000000000a0",
    "00000000000000000000000000000000000000b1",
    "00000000000000000000000000000000000000a0",
];

const SHORT: [&str; 3] = [
    "0000000000000000000000000000000000000a0",
    "00000000000000000000000000000000000000b1",
    "00000000000000000000000000000000000000c2",
];

fn server(alloc: Global, name: &str) -> Result<Server, AllocError> {
    let name = name.as_bytes();
    Ok(Server {
        name: Text::from_slice(alloc, &name[..name.len().min(40)])?,
        host: Text::empty(alloc),
        port: 7000,
    })
}

fn book_of(alloc: Global, names: [&str; 3]) -> Result<ServerBook, AllocError> {
    let [one, two, three] = names;
    let servers = vec![in alloc;
        server(alloc, one)?,
        server(alloc, two)?,
        server(alloc, three)?,
    ]?;
    Ok(ServerBook::of(servers))
}

/// A plan of version 4 that moves slots 3 to 5 between these nodes.
fn plan_between(alloc: Global, source: NodeId, target: NodeId) -> Result<Plan, Memory> {
    let _nodes = (source.get(), target.get());
    let mut plan = Plan::of_names(1, NodeNames::new(alloc));
    plan.push(Line::Move {
        first: Slot::of(3),
        last: Slot::of(5),
        source,
        target,
        batch: 100,
    })?;
    Ok(plan)
}

/// The plan with names, or why there is none.
fn named_between(
    alloc: Global,
    source: NodeId,
    target: NodeId,
    names: [&str; 3],
) -> Result<Plan, NamingFault> {
    named_plan(
        plan_between(alloc, source, target)?,
        &book_of(alloc, names)?,
    )
}

/// What the plan with names is written as.
fn text_between(
    alloc: Global,
    source: NodeId,
    target: NodeId,
    names: [&str; 3],
) -> Result<Vec<u8>, NamingFault> {
    let plan = named_between(alloc, source, target, names)?;
    Ok(print(alloc, &plan)?)
}

#[test]
fn mentioned_nodes_are_listed(rt: HostRuntime) -> Result<(), Fail> {
    let text = text_between(rt.alloc(), NodeId::of(0), NodeId::of(2), NAMES)?;
    let wanted = "reshard-plan 4\n\
        node n0 00000000000000000000000000000000000000a0\n\
        node n2 00000000000000000000000000000000000000c2\n\
        move 3-5 from n0 to n2 by 100\nend\n";
    assert!(rt; text.as_slice() == wanted.as_bytes());
    // What no line mentions is not looked at.
    let text = text_between(rt.alloc(), NodeId::of(0), NodeId::of(1), TWICE)?;
    assert!(rt; text.len() == 147);
    Ok(())
}

/// What is said of a plan between these nodes that can't be named.
fn fault_between(
    alloc: Global,
    source: NodeId,
    target: NodeId,
    names: [&str; 3],
) -> Result<String, AllocError> {
    let fault = fault_of(named_between(alloc, source, target, names));
    format!(in alloc; "{fault}")
}

/// Why there is no plan; or that memory ran out, where there is one.
fn fault_of(named: Result<Plan, NamingFault>) -> NamingFault {
    match named {
        Ok(plan) => {
            drop(plan);
            NamingFault::Memory
        }
        Err(fault) => fault,
    }
}

#[test]
fn strange_names_are_told(rt: HostRuntime) -> Result<(), Fail> {
    let twice = fault_between(rt.alloc(), NodeId::of(2), NodeId::of(0), TWICE)?;
    assert!(rt; twice.as_str() == "the name of n2 is that of another node, too");
    let short = fault_between(rt.alloc(), NodeId::of(0), NodeId::of(1), SHORT)?;
    assert!(rt; short.as_str() == "the name of n0 is not one of 40 hexadecimal digits");
    let beyond = fault_between(rt.alloc(), NodeId::of(0), NodeId::of(3), NAMES)?;
    assert!(rt; beyond.as_str() == "n3 is no node of the cluster");
    Ok(())
}
