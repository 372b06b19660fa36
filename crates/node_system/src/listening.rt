//! A listening socket and the streams that it gives.
use std::io;
use std::net::{Net, TcpListener, TcpStream};

/// A socket that listens on this port of an address of the machine and never blocks.
pub fn listen<R>(net: &R, address: &str, port: u16) -> io::Result<TcpListener>
where
    R: Net<Listener = TcpListener, Stream = TcpStream>,
{
    let listener = TcpListener::bind(net, (address, port))?;
    listener.set_nonblocking(true)?;
    Ok(listener)
}

// A stream that never blocks and sends at once what it is given.
fn prepared(stream: TcpStream) -> io::Result<TcpStream> {
    stream.set_nonblocking(true)?;
    stream.set_nodelay(true)?;
    Ok(stream)
}

/// The next connection, ready to be served without waiting, or none where none can be had now.
pub fn next_stream(listener: &TcpListener) -> Option<TcpStream> {
    let (stream, _) = listener.accept().ok()?;
    prepared(stream).ok()
}
