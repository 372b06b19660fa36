//! Laws of signing in: functions that do nothing, and whose contracts are the laws.
ghost use Rattle.std.specs.Prelude.{ℕ};
ghost use Rattle.channel_rules.specs.Said.{Worded};
ghost use Rattle.serve_connections.specs.Plainly.{AllAnswerPlainly, AllDealPlainly, AllGoOn, NewcomersArePlain};
ghost use Rattle.serve_connections.specs.SigningLaws.{AsksAreGranted, NewcomersAreShown, RenewalsAreShown};
ghost use Rattle.serve_connections.specs.Turning.{around};

use channel_rules::Port;
use client_settings::laws::plain_changes_nothing;
use hook_registry::PresenceHooks;
use serve_sockets::CarriesToken;
use std::io::{Read, Write};

/// What is granted to a client is at first what a token grants that its own stream carries, and from then on that or what a
/// token grants that it shows itself, by the text that is answered: each taken then, under one of the server's keys.
pub fn grants_are_shown<S: CarriesToken, P: Port, H: PresenceHooks>()
    ensures newcomers { NewcomersAreShown S.carried }
    ensures texts { (hooks : H) (pid : ℕ)
        → RenewalsAreShown (Worded (H.PresenceHooks.fetched hooks) (H.PresenceHooks.plain hooks)) (P.step pid) }
{}

/// Where clients sign in nothing is asked of a port, but what takes away from its caller, that what is granted to this client
/// doesn't give at this second.
pub fn what_is_asked_is_granted<P: Port>()
    ensures { (pid : ℕ) → AsksAreGranted (P.step pid) }
{}

/// Where clients don't sign in each goes on. One that may do nothing beyond the usual has its texts answered as they came,
/// by all routes, over the port as it is; and what its session gives goes out as it is.
pub fn without_keys_all_is_plain<
    S: Read + Write + Drop + CarriesToken,
    K,
    P: Port,
    H: PresenceHooks,
>()
    ensures newcomers { NewcomersArePlain S.carried }
    ensures goes_on { AllGoOn }
    ensures answers { (hooks : H) → AllAnswerPlainly K (around S.remaining S.contents P.step H.PresenceHooks hooks) }
    ensures deals { (hooks : H) → AllDealPlainly K (around S.remaining S.contents P.step H.PresenceHooks hooks) }
{
    plain_changes_nothing();
}
