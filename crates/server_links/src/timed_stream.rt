//! Both ends of a connection over a socket, which fail when the time for a request and its reply is over.
use crate::timer::Timer;
use std::io::{self, Read, Write};
use std::net::TcpStream;
use std::time::Clock;

/// Where the replies come from. Before each read the time that is left is set.
#[derive(Drop)]
pub struct TimedReader<'a, C> {
    stream: TcpStream,
    timer: Timer<'a, C>,
}

impl<'a, C: Clock> TimedReader<'a, C> {
    pub(crate) fn new(stream: TcpStream, timer: Timer<'a, C>) -> Self {
        Self { stream, timer }
    }
}

impl<C: Clock> Read for TimedReader<'_, C> {
    fn read(&mut self, buf: &mut [u8]) -> io::Result<usize> {
        let left = self.timer.left_to_read()?;
        self.stream.set_read_timeout(Some(left))?;
        self.stream.read(buf)
    }
}

/// Where the requests go. Before each write the time that is left is set.
#[derive(Drop)]
pub struct TimedWriter<'a, C> {
    stream: TcpStream,
    timer: Timer<'a, C>,
}

impl<'a, C: Clock> TimedWriter<'a, C> {
    pub(crate) fn new(stream: TcpStream, timer: Timer<'a, C>) -> Self {
        Self { stream, timer }
    }
}

impl<C: Clock> Write for TimedWriter<'_, C> {
    fn write(&mut self, buf: &[u8]) -> io::Result<usize> {
        let left = self.timer.left_to_write()?;
        self.stream.set_write_timeout(Some(left))?;
        self.stream.write(buf)
    }

    fn flush(&mut self) -> io::Result<()> {
        self.stream.flush()
    }
}
