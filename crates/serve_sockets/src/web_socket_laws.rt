//! Laws of sockets: functions that do nothing, and whose contracts are the laws.
ghost use Rattle.std.specs.Prelude.{◌≡◌, ◌+◌};
ghost use Rattle.serve_sockets.specs.declared.buffer.TheConstants.{KEPT_BYTES};
ghost use Rattle.serve_sockets.specs.declared.web_socket.TheConstants.{MAX_WAITING};

/// How much memory an empty buffer keeps, and how much may wait to be sent: a frame of 16 MiB and 1 MiB more.
pub fn limits_are_these()
    ensures kept { KEPT_BYTES ≡ 4096 }
    ensures waiting { MAX_WAITING ≡ 16777216 + 1048576 }
{}
