//! Who comes to the door.
use node_system::is_no_file;
use std::io;
use std::net::{IpAddr, TcpListener, TcpStream};

/// Who waits at a listening socket.
#[derive(Drop)]
pub(crate) enum Caller {
    /// A connection, ready to be served without waiting, and the address that it is from: that of IPv4, where it is mapped.
    Came(TcpStream, IpAddr),
    /// One came, and went.
    Went,
    Nobody,
    /// No further file can be opened, so that nobody can be let in.
    NoFile,
}

// Lets a stream never block, and send at once what it is given.
fn prepare(stream: &TcpStream) -> io::Result<()> {
    stream.set_nonblocking(true)?;
    stream.set_nodelay(true)
}

/// Who comes next, if anybody waits.
pub(crate) fn next_caller(listener: &TcpListener) -> Caller {
    match listener.accept() {
        Ok((stream, address)) => {
            if prepare(&stream).is_err() {
                return Caller::Went;
            }
            Caller::Came(stream, address.ip().to_canonical())
        }
        Err(error) if is_no_file(&error) => Caller::NoFile,
        Err(_) => Caller::Nobody,
    }
}
