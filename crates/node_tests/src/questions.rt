//! Sessions that tell of questions beside the requests that go to their node.
use crate::clusters::three_nodes;
use byte_streams::{MemoryIn, MemoryOut};
use byte_texts::Memory;
use cluster_world::PortFault;
use key_slots::NodeId;
use node_session::{Questions, SessionEnd, serve_with_questions};
use resp2_wire::{Reply, Request};

/// Takes requests of two words for questions, and tells how many there were.
#[derive(Drop)]
struct Counting {
    count: i64,
}

impl Questions for Counting {
    ghost use Rattle.std.specs.Prelude.{◌==◌, length};

    ghost hears = { λ words. length words == 2 };

    ghost tells = { λ _ _ _ _. Unit {0} };

    fn tell(&mut self, request: &Request) -> Option<Result<Reply, PortFault>> {
        if request.get().len() != 2 {
            return None;
        }
        self.count = self.count.wrapping_add(1);
        Some(Ok(Reply::Number(self.count)))
    }
}

/// A QUIT that is no question is an unknown command, and one that is a question ends the session after its reply.
#[test]
fn told_and_left(rt: HostRuntime) -> Result<(), Memory> {
    let input = b"*1\r\n$4\r\nPING\r\n*2\r\n$3\r\nGET\r\n$1\r\nb\r\n*1\r\n$4\r\nQUIT\r\n\
        *2\r\n$4\r\nqUIT\r\n$1\r\nx\r\n*1\r\n$4\r\nPING\r\n";
    let output = b"+PONG\r\n:1\r\n-ERR unknown command\r\n:2\r\n";
    let mut world = three_nodes(rt.alloc())?;
    let mut reader = MemoryIn::new(input, false);
    let mut writer = MemoryOut::new(rt.alloc(), 999);
    let mut questions = Counting { count: 0 };
    let node = NodeId::of(0);
    assert!(rt; node.get() < world.nodes());
    let (end, sent) = serve_with_questions(
        rt.alloc(),
        &mut reader,
        &mut writer,
        &mut world,
        &mut questions,
        node,
    );
    assert!(rt; matches!(end, SessionEnd::Quit) && sent == 37);
    assert!(rt; writer.bytes.as_slice() == output.as_slice());
    Ok(())
}
