// A session that nothing was stepped in yet.
ghost use Rattle.std.specs.Prelude.{IfOk};
ghost use Rattle.bridge_runner.specs.Plays.{session_meaning};

use bridge_runner::Session;
use line_io::NoMemory;
use policy_rules::Settings;
use std::alloc::Global;

/// Takes the memory of a session with the usual settings.
pub fn make_session(alloc: Global) -> Result<Session, NoMemory>
    ensures { IfOk result (λ session. session_meaning.fresh session) }
{
    let settings = Settings::usual();
    Session::make(alloc, &settings)
}
