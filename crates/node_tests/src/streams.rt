use byte_streams::{
    ByteIn, ByteOut, Failed, MemoryIn, StandardIn, StandardOut, Unread, read_whole,
};
use std::io;
use std::io::{Read, Write};

/// A reader that gives one byte, then fails, and then is at its end.
#[derive(Drop)]
struct Faulty {
    calls: u64,
}

impl Read for Faulty {
    fn read(&mut self, buf: &mut [u8]) -> io::Result<usize> {
        self.calls = self.calls.wrapping_add(1);
        match self.calls {
            1 if !buf.is_empty() => {
                buf[0] = b'a';
                Ok(1)
            }
            2 => Err(io::Error::from(io::ErrorKind::ConnectionReset)),
            _ => Ok(0),
        }
    }
}

/// A failed read is no end, and the end comes only where the reader has it.
#[test]
fn a_failed_read_is_no_end(rt: HostRuntime) {
    let mut reader = StandardIn::new(Faulty { calls: 0 });
    let mut buffer = [0u8; 4];
    assert!(rt; matches!(reader.read(&mut buffer), Ok(1)));
    assert!(rt; buffer[0] == b'a');
    assert!(rt; matches!(reader.read(&mut buffer), Err(Failed)));
    assert!(rt; matches!(reader.read(&mut buffer), Ok(0)));
}

/// A writer that takes two bytes, then fails, then takes none, and then all.
#[derive(Drop)]
struct Stubborn {
    calls: u64,
}

impl Write for Stubborn {
    fn write(&mut self, buf: &[u8]) -> io::Result<usize> {
        self.calls = self.calls.wrapping_add(1);
        match self.calls {
            1 => Ok(buf.len().min(2)),
            2 => Err(io::Error::from(io::ErrorKind::BrokenPipe)),
            3 => Ok(0),
            _ => Ok(buf.len()),
        }
    }

    fn flush(&mut self) -> io::Result<()> {
        Ok(())
    }
}

/// A write fails where the writer's does, or where it takes no byte, and not otherwise.
#[test]
fn a_write_fails_where_the_writer_does(rt: HostRuntime) {
    let mut writer = StandardOut::new(Stubborn { calls: 0 });
    assert!(rt; matches!(writer.write(b"abc"), Ok(2)));
    assert!(rt; matches!(writer.write(b"abc"), Err(Failed)));
    assert!(rt; matches!(writer.write(b"abc"), Err(Failed)));
    assert!(rt; matches!(writer.write(b"abc"), Ok(3)));
}

/// An input that is longer than the buffer of one read is read to its end, and a failed read is reported.
#[test]
fn a_whole_input(rt: HostRuntime) -> Result<(), Unread> {
    let input = vec![in rt.alloc(); 7u8; 70_000]?;
    let mut reader = MemoryIn::new(input.as_slice(), false);
    let text = read_whole(rt.alloc(), &mut reader)?;
    assert!(rt; text.len() == 70_000);
    let mut faulty = MemoryIn::new(b"plan", true);
    assert!(rt;
        matches!(
            read_whole(rt.alloc(), &mut faulty).err(),
            Some(Unread::Failed)
        )
    );
    Ok(())
}
