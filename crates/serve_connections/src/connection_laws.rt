//! Laws of connections: functions that do nothing, and whose contracts are the laws.
ghost use Rattle.std.specs.Prelude.{◌≡◌, ◌+◌};
ghost use Rattle.serve_connections.specs.declared.connection.TheConstants.{MAX_DEALT, MAX_SILENCE, PING_SILENCE, READ_BYTES, WRITE_BYTES};
ghost use Rattle.serve_connections.specs.declared.sparing.TheConstants.{MAX_UNSENT};
ghost use Rattle.serve_sockets.specs.declared.web_socket.TheConstants.{MAX_WAITING};

/// After how many milliseconds of silence a connection is closed, and after how many its client is sent a ping; how many
/// items a turn takes, and how many bytes wait at most before it takes nothing further; how many a read asks for, and how
/// many gather before they go out; beside those a frame of 16 MiB has room.
pub fn limits_are_these()
    ensures silence { MAX_SILENCE ≡ 60000 }
    ensures ping { PING_SILENCE ≡ 30000 }
    ensures unsent { MAX_UNSENT ≡ 393216 }
    ensures dealt { MAX_DEALT ≡ 16 }
    ensures read { READ_BYTES ≡ 256 }
    ensures gathered { WRITE_BYTES ≡ 1048576 }
    ensures waiting { MAX_WAITING ≡ 16777216 + WRITE_BYTES }
{}
