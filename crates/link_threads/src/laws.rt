//! Laws of the threads of links: functions that do nothing, and whose contracts are the laws.
ghost use Rattle.std.specs.Prelude.{◌≡◌};
ghost use Rattle.link_threads.specs.declared.dialling.TheConstants.{CONNECT_MILLISECONDS, STANDING_MILLISECONDS};
ghost use Rattle.link_threads.specs.declared.incoming.TheConstants.{MAX_ACCEPTED};
ghost use Rattle.link_threads.specs.declared.ticking.TheConstants.{PERIOD_MILLISECONDS};

/// How often a beat goes out, how long a link stands until one that ends is told anew, how long a call to a peer takes, and
/// how many calls are taken in a row.
pub fn limits_are_these()
    ensures period { PERIOD_MILLISECONDS ≡ 1500 }
    ensures standing { STANDING_MILLISECONDS ≡ 30000 }
    ensures connect { CONNECT_MILLISECONDS ≡ 1000 }
    ensures accepted { MAX_ACCEPTED ≡ 64 }
{}
