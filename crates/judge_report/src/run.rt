// The run of a judge over an input.
ghost use Rattle.std.specs.Prelude.{◌≡◌};
ghost use Rattle.replay_command_base.specs.Diagnostics.{command_status};
ghost use Rattle.replay_command_base.specs.Streams.{filter_streams};
ghost use Rattle.judge_report.specs.Conducts.{ConductJudged};
ghost use Rattle.judge_report.specs.Judged.{Judged};

use crate::conduct_report::ConductReport;
use crate::report::Report;
use line_io::{Sink, Source};
use replay_command_base::{Ending, run_filter};
use session_judge::Listener;
use std::alloc::Global;

/// Judges the log that the input gives and this one wrote, writes the report on it, and reports how that ended: `Done` if the talk with the
/// engine is lawful, `Unlawful` with the line of the mark that breaks a rule, `NoMark` with a line that is none of a
/// log; or what kept it from reading or writing.
pub fn run_judge<I: Source, O: Sink, D: Sink>(
    alloc: Global,
    listener: Listener,
    input: &mut I,
    output: &mut O,
    diag: &mut D,
) -> Ending
    ensures { Judged listener ((input.new ≡ input.old) × (output.new ≡ output.old))
        (filter_streams (I.state input.old) (O.state output.old) (D.state diag.old))
        (filter_streams (I.state input.new) (O.state output.new) (D.state diag.new))
        (command_status result) }
{
    run_filter(alloc, Report::new(alloc, listener), input, output, diag)
}

/// Judges an engine's own conduct in the log that the input gives and this one wrote, writes the report on it, and reports
/// how that ended: `Done` if no line is blamed, `Unlawful` with the line that was blamed last, `NoMark` with a line that
/// is none of a log; or what kept it from reading or writing.
pub fn run_conduct_judge<I: Source, O: Sink, D: Sink>(
    alloc: Global,
    listener: Listener,
    input: &mut I,
    output: &mut O,
    diag: &mut D,
) -> Ending
    ensures { ConductJudged listener ((input.new ≡ input.old) × (output.new ≡ output.old))
        (filter_streams (I.state input.old) (O.state output.old) (D.state diag.old))
        (filter_streams (I.state input.new) (O.state output.new) (D.state diag.new))
        (command_status result) }
{
    run_filter(alloc, ConductReport::new(listener), input, output, diag)
}
