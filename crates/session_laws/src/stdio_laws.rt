//! Laws of a run: functions that do nothing, and whose contracts are the laws.

ghost use Rattle.session_laws.specs.Mirrored.{JoinedAreMirrored, MirroredBehindLines};

use hook_registry::PresenceHooks;
use presence_options::StdioOptions;

/// Behind each line of an input, as long as its lines are answered, the client that folds all that
/// was written for a joined topic has the topic's present rows, whatever these hooks add.
pub fn joined_topics_are_mirrored<H: PresenceHooks>(hooks: &H)
    ensures { JoinedAreMirrored H.PresenceHooks hooks.now }
{
    let _hooks = hooks;
}

/// So it is behind each answered line of a run with these options (`run_stdio`), whatever its input is.
pub fn mirrors<H: PresenceHooks>(hooks: &H, options: &StdioOptions)
    ensures { MirroredBehindLines H.PresenceHooks hooks.now options.now }
{
    let _name = options.name.as_str();
    joined_topics_are_mirrored(hooks);
}
