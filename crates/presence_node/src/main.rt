//! A node that serves Phoenix Channels with Presence.
#![tactic(auto)]

use presence_node_main::run_program;
use std::net::{TcpListener, TcpStream};
use std::process::ExitCode;

fn main(rt: HostRuntime) -> ExitCode {
    // A server's sockets: the check finds them here, but not in the bounds of the trait `ServeRuntime`.
    let _sockets: Option<(TcpListener, TcpStream)> = None;
    ExitCode::from(run_program(&rt))
}
