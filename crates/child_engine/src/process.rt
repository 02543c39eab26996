// The process of an engine.
ghost use Rattle.std.specs.Prelude.{◌≡◌, IfOk};

use std::io;
use std::process::{
    Child, ChildStdin, ChildStdout, Command, ExitStatus, Processes, Stdio, SystemProcess,
};

/// The process of an engine, beside the command that it was spawned from. The command is kept so
/// that a contract can say which one it was.
#[derive(Drop)]
pub struct RealProcess {
    command: Command,
    child: Child<SystemProcess>,
}

impl RealProcess {
    // Spawns this command, with pipes for its input and its output. What std spawns it says in no
    // contract, so this call, which has no other command, is to be read.
    pub(crate) fn spawn<R: Processes<Started = SystemProcess>>(
        rt: &R,
        command: Command,
        diag: &Stdio,
    ) -> io::Result<RealProcess>
        ensures { IfOk result (λ process. process.command ≡ command) }
    {
        let child = rt.spawn(&command, &Stdio::piped(), &Stdio::piped(), diag)?;
        Ok(RealProcess { command, child })
    }

    // Its input and its output, if they were not taken yet.
    pub(crate) fn take_pipes(&mut self) -> Option<(ChildStdin, ChildStdout)>
        ensures { self.new.command ≡ self.old.command }
    {
        let input = self.child.stdin.take()?;
        let output = self.child.stdout.take()?;
        Some((input, output))
    }

    // Waits for its end.
    pub(crate) fn wait(self) -> io::Result<ExitStatus> {
        let RealProcess {
            command: _command,
            mut child,
        } = self;
        child.wait()
    }
}
