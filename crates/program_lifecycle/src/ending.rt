// The end of a program.
ghost use Rattle.std.specs.Prelude.{◌≡◌, string_bytes};
ghost use Rattle.program_lifecycle.specs.Endings.{first_failure, program_status, ending_text, program_diagnostic};
ghost use Rattle.program_lifecycle.specs.Program.{IsReportedTo};
ghost use Rattle.program_lifecycle.specs.declared.ending.ProgramEnding.TheVariants as endings;

use crate::Failures;
use line_io::{Sink, Status, write_all};
use program_command_line::ArgumentsRefusal;

/// The end of a program. If several failures came, the one that stands first here is reported.
#[derive(Clone, Copy)]
pub enum ProgramEnding {
    Done,
    Usage,
    NoMemory,
    ReadingFailed,
    WritingFailed,
    EngineReadingFailed,
    EngineWritingFailed,
    EngineStartFailed,
    LogFailed,
    EngineWaitFailed,
}

impl ProgramEnding {
    /// The first of the failures.
    pub fn of(failures: Failures) -> ProgramEnding
        ensures { result ≡ first_failure failures }
    {
        if failures.memory {
            ProgramEnding::NoMemory
        } else if failures.iface_read {
            ProgramEnding::ReadingFailed
        } else if failures.iface_write {
            ProgramEnding::WritingFailed
        } else if failures.engine_read {
            ProgramEnding::EngineReadingFailed
        } else if failures.engine_write {
            ProgramEnding::EngineWritingFailed
        } else if failures.engine_start {
            ProgramEnding::EngineStartFailed
        } else if failures.log {
            ProgramEnding::LogFailed
        } else if failures.engine_wait {
            ProgramEnding::EngineWaitFailed
        } else {
            ProgramEnding::Done
        }
    }

    /// The status of the program.
    pub fn code(self) -> u8
        ensures { result ≡ program_status self }
    {
        match self {
            ProgramEnding::Done => 0,
            ProgramEnding::Usage => 2,
            ProgramEnding::NoMemory => 3,
            ProgramEnding::ReadingFailed => 4,
            ProgramEnding::WritingFailed => 5,
            ProgramEnding::EngineReadingFailed => 6,
            ProgramEnding::EngineWritingFailed => 7,
            ProgramEnding::EngineStartFailed => 8,
            ProgramEnding::LogFailed => 9,
            ProgramEnding::EngineWaitFailed => 10,
        }
    }

    // The text of a diagnostic after the program's name, with its line feed.
    fn failure_text(self) -> &'static [u8]
        ensures { result.now ≡ ending_text self }
    {
        match self {
            ProgramEnding::Done => b"",
            ProgramEnding::Usage => b": usage\n",
            ProgramEnding::NoMemory => b": no memory\n",
            ProgramEnding::ReadingFailed => b": reading failed\n",
            ProgramEnding::WritingFailed => b": writing failed\n",
            ProgramEnding::EngineReadingFailed => b": engine reading failed\n",
            ProgramEnding::EngineWritingFailed => b": engine writing failed\n",
            ProgramEnding::EngineStartFailed => b": engine start failed\n",
            ProgramEnding::LogFailed => b": log failed\n",
            ProgramEnding::EngineWaitFailed => b": engine wait failed\n",
        }
    }
}

// The end of a program whose arguments are refused.
impl From<ArgumentsRefusal> for ProgramEnding {
    ghost use Rattle.std.specs.Prelude.{◌≡◌};
    ghost use Rattle.program_lifecycle.specs.Endings.{ending_for};

    ghost from_gives = { λ refusal ending. ending ≡ ending_for refusal };

    fn from(refusal: ArgumentsRefusal) -> Self {
        match refusal {
            ArgumentsRefusal::Usage => ProgramEnding::Usage,
            ArgumentsRefusal::NoMemory => ProgramEnding::NoMemory,
        }
    }
}

/// Writes the diagnostic of an ending, one line that begins with the program's name. An ending without a failure
/// has none. A diagnostic that cannot be written changes no status.
pub fn report_ending<D: Sink>(program: &[u8], ending: ProgramEnding, diag: &mut D)
    ensures { IsReportedTo (D.state diag.old) (D.state diag.new) (program_diagnostic program.now
        ending) }
{
    if let ProgramEnding::Done = ending {
        return;
    }
    if write_all(diag, program).is_ok() {
        let _ = write_all(diag, ending.failure_text());
    }
}

/// Ends a program: writes the diagnostic, and answers with the status.
pub fn finish<D: Sink>(program: &[u8], ending: ProgramEnding, diag: &mut D) -> Status
    ensures status { result.code ≡ program_status ending }
    ensures reported { IsReportedTo (D.state diag.old) (D.state diag.new) (program_diagnostic
        program.now ending) }
{
    report_ending(program, ending, diag);
    Status {
        code: ending.code(),
    }
}
