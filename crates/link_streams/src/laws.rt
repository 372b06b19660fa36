//! Laws of the streams of links: functions that do nothing, and whose contracts are the laws.
ghost use Rattle.std.specs.Prelude.{◌≡◌};
ghost use Rattle.link_streams.specs.declared.stream.TheConstants.{HELLO_MILLISECONDS, LINE_MILLISECONDS, LONG_LINE_BYTES, LOOK_MILLISECONDS, MAX_HELLO_BYTES, MAX_LOOKS};

/// How long a read of a link waits and how often, how long a hello and a line may take, how long a hello may be, and which
/// lines are long.
pub fn limits_are_these()
    ensures look { LOOK_MILLISECONDS ≡ 200 }
    ensures looks { MAX_LOOKS ≡ 150 }
    ensures hello { HELLO_MILLISECONDS ≡ 5000 }
    ensures line { LINE_MILLISECONDS ≡ 30000 }
    ensures bytes { MAX_HELLO_BYTES ≡ 4096 }
    ensures long { LONG_LINE_BYTES ≡ 65536 }
{}
