//! Laws of a run of the server: functions that do nothing, and whose contracts are the laws.
ghost use Rattle.presence_node_main.specs.Laws.{PlainByDefault};

/// A server whose command line asks for nothing of it leaves each text of a client, and each that a client gets, as it is.
pub fn plain_by_default()
    ensures { PlainByDefault }
{}
