//! Weights and nodes of three, and of twelve, by hand.
use cluster_cli::{drain_named, nodes_named, weights_asked};
use command_words::{
    ClusterWords, DrainWords, RebalanceWords, ReshardWords, Sizes, SlotCount, Start,
};
use key_slots::NodeId;
use std::alloc::{AllocError, Global};
use std::test::Fail;

/// Texts that are taken at a cluster of servers, with what each of three nodes weighs then.
const TAKEN: [(&str, &[u16]); 7] = [
    ("n2=0", &[1, 1, 0]),
    ("n0=2", &[2, 1, 1]),
    ("n2=0,n0=1000", &[1000, 1, 0]),
    ("n1=1", &[1, 1, 1]),
    ("n2=3,n1=1,n0=2", &[2, 1, 3]),
    ("2,1,1", &[2, 1, 1]),
    ("0,0,1000", &[0, 0, 1000]),
];

/// Texts that give three nodes no weights.
const REFUSED: [&str; 24] = [
    "n2=0,n2=1",
    "n2=1,n1=1,n2=1",
    "n3=1",
    "n9=1",
    "n1",
    "1,n1=0",
    "n1=0,1",
    "1,1,n2=0",
    "n1=0,",
    ",n1=0",
    "n1=0,,n2=0",
    "",
    ",",
    "=",
    "n1=",
    "=1",
    "n1=1001",
    "n1=01",
    "n1=+1",
    "n1=1=1",
    "n01=1",
    "N1=1",
    "n1=0 ",
    "1,1",
];

fn at_cluster(alloc: Global) -> Start {
    Start::Cluster(ClusterWords {
        addresses: Vec::new(alloc),
        expect: None,
    })
}

fn even() -> Start {
    Start::Even(Sizes {
        nodes: 3,
        owning: 3,
    })
}

/// The weights of so many nodes by the words.
fn weights(
    alloc: Global,
    start: Start,
    text: &str,
    nodes: u8,
) -> Result<Option<Vec<u16>>, AllocError> {
    let words = RebalanceWords {
        start,
        weights: Some(String::from_str(alloc, text)?),
        threshold: 2,
        use_empty: false,
        batch: 10,
    };
    weights_asked(&words, alloc, nodes)
}

fn are(weights: &Option<Vec<u16>>, wanted: &[u16]) -> bool {
    match weights {
        Some(weights) => weights.as_slice() == wanted,
        None => false,
    }
}

#[test]
fn weights_of_some(rt: HostRuntime) -> Result<(), Fail> {
    for (text, wanted) in TAKEN {
        let found = weights(rt.alloc(), at_cluster(rt.alloc()), text, 3)?;
        assert!(rt; are(&found, wanted));
    }
    for text in REFUSED {
        let found = weights(rt.alloc(), at_cluster(rt.alloc()), text, 3)?;
        assert!(rt; found.is_none());
    }
    Ok(())
}

#[test]
fn weights_of_an_even_split(rt: HostRuntime) -> Result<(), Fail> {
    let listed = weights(rt.alloc(), even(), "2,1,1", 3)?;
    assert!(rt; are(&listed, &[2, 1, 1]));
    let named = weights(rt.alloc(), even(), "n2=0", 3)?;
    assert!(rt; named.is_none());
    Ok(())
}

#[test]
fn nodes_of_a_reshard(rt: HostRuntime) -> Result<(), Fail> {
    let words = ReshardWords {
        start: even(),
        from: String::from_str(rt.alloc(), "all")?,
        to: String::from_str(rt.alloc(), "n1")?,
        slots: SlotCount::Exactly(10),
        batch: 10,
    };
    match nodes_named(&words, rt.alloc(), 3)? {
        Some((sources, target)) => {
            let numbers: Vec<u8> = sources.iter().map(|node| node.get()).collect(rt.alloc())?;
            assert!(rt; numbers.as_slice() == [0, 2].as_slice());
            assert_eq!(rt; target.get(), 1);
        }
        None => assert!(rt; false),
    }
    Ok(())
}

#[test]
fn weights_beyond_the_eighth_node(rt: HostRuntime) -> Result<(), Fail> {
    let found = weights(rt.alloc(), at_cluster(rt.alloc()), "n11=0,n8=3", 12)?;
    assert!(rt; are(&found, &[1, 1, 1, 1, 1, 1, 1, 1, 3, 1, 1, 0]));
    for text in ["n12=1", "n08=1", "n255=1", "n11=1,n11=1"] {
        let found = weights(rt.alloc(), at_cluster(rt.alloc()), text, 12)?;
        assert!(rt; found.is_none());
    }
    Ok(())
}

#[test]
fn nodes_beyond_the_eighth(rt: HostRuntime) -> Result<(), Fail> {
    let words = ReshardWords {
        start: at_cluster(rt.alloc()),
        from: String::from_str(rt.alloc(), "n0,n8,n11")?,
        to: String::from_str(rt.alloc(), "n10")?,
        slots: SlotCount::Exactly(10),
        batch: 10,
    };
    match nodes_named(&words, rt.alloc(), 12)? {
        Some((sources, target)) => {
            let numbers: Vec<u8> = sources.iter().map(|node| node.get()).collect(rt.alloc())?;
            assert!(rt; numbers.as_slice() == [0, 8, 11].as_slice());
            assert_eq!(rt; target.get(), 10);
        }
        None => assert!(rt; false),
    }
    assert!(rt; nodes_named(&words, rt.alloc(), 11)?.is_none());
    Ok(())
}

/// Words that name nodes of four to drain and to take slots, with the numbers of both.
const DRAINS: [(&str, Option<&str>, &[u8], &[u8]); 5] = [
    ("n3", None, &[3], &[0, 1, 2]),
    ("n3,n0", None, &[3, 0], &[1, 2]),
    ("n1,n1", Some("n0,n2"), &[1, 1], &[0, 2]),
    ("n0,n1,n2,n3", None, &[0, 1, 2, 3], &[]),
    ("n0", Some("n0"), &[0], &[0]),
];

/// Words that name no nodes of four.
const UNNAMED: [(&str, Option<&str>); 6] = [
    ("n4", None),
    ("", None),
    ("all", None),
    ("n0,", None),
    ("n0", Some("")),
    ("n0", Some("n1,n4")),
];

fn drain_words(alloc: Global, from: &str, to: Option<&str>) -> Result<DrainWords, AllocError> {
    let to = match to {
        Some(text) => Some(String::from_str(alloc, text)?),
        None => None,
    };
    Ok(DrainWords {
        start: at_cluster(alloc),
        from: String::from_str(alloc, from)?,
        to,
        batch: 10,
    })
}

fn numbers_are(nodes: &[NodeId], wanted: &[u8]) -> bool {
    nodes.len() == wanted.len()
        && nodes
            .iter()
            .zip(wanted)
            .all(|(node, number)| node.get() == *number)
}

#[test]
fn nodes_of_a_drain(rt: HostRuntime) -> Result<(), Fail> {
    for (from, to, sources, targets) in DRAINS {
        let words = drain_words(rt.alloc(), from, to)?;
        match drain_named(&words, rt.alloc(), 4)? {
            Some((found, others)) => {
                assert!(rt; numbers_are(found.as_slice(), sources));
                assert!(rt; numbers_are(others.as_slice(), targets));
            }
            None => assert!(rt; false),
        }
    }
    for (from, to) in UNNAMED {
        let words = drain_words(rt.alloc(), from, to)?;
        assert!(rt; drain_named(&words, rt.alloc(), 4)?.is_none());
    }
    Ok(())
}
