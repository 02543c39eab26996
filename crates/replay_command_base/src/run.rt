// One run over the lines of an input.
ghost use Rattle.std.specs.Prelude.{◌≡◌, [], IfOk};
ghost use Rattle.line_io.specs.Lines.{empty_reader};
ghost use Rattle.line_io.specs.Out.{empty};
ghost use Rattle.line_io.specs.Source.{Received};
ghost use Rattle.replay_command_base.specs.Diagnostics.{command_status};
ghost use Rattle.replay_command_base.specs.Ran.{Causes, FilterRan};
ghost use Rattle.replay_command_base.specs.Streams.{filter_streams};
ghost use Rattle.replay_command_base.specs.Filtered.{FilterEndsBy, Filtered};
ghost use Rattle.line_io.specs.declared.limits.TheConstants.{SCRIPT_LINE};
ghost use Rattle.replay_command_base.specs.declared.limits.TheConstants.{DIAGNOSTIC_ROOM, TEXT_ROOM};

use crate::line_filter::LineFilter;
use crate::writer::Writer;
use crate::{DIAGNOSTIC_ROOM, Ending, TEXT_ROOM, report_ending, report_without_buffer};
use line_io::{Lines, LinesEnd, NoMemory, Out, SCRIPT_LINE, Sink, Source, take_lines};
use std::alloc::Global;

// The memory of a run: for the lines, for the text, and for a diagnostic.
#[derive(Drop)]
struct FilterRoom {
    lines: Lines,
    text: Out,
    announced: Out,
}

impl FilterRoom {
    fn make(alloc: Global) -> Result<FilterRoom, NoMemory>
        ensures lines { IfOk result (λ room. room.lines ≡ empty_reader SCRIPT_LINE) }
        ensures text { IfOk result (λ room. room.text ≡ empty TEXT_ROOM) }
        ensures announced { IfOk result (λ room. room.announced ≡ empty DIAGNOSTIC_ROOM) }
    {
        Ok(FilterRoom {
            lines: Lines::make(alloc, SCRIPT_LINE)?,
            text: Out::make(alloc, TEXT_ROOM)?,
            announced: Out::make(alloc, DIAGNOSTIC_ROOM)?,
        })
    }
}

// Gives the lines of the input to the line filter, and writes its text.
fn write_lines_of<I: Source, O: Sink, S: LineFilter>(
    lines: &mut Lines,
    input: &mut I,
    writer: &mut Writer<S>,
    output: &mut O,
) -> Ending
    requires lines { lines.old ≡ empty_reader SCRIPT_LINE }
    requires text { writer.old.text ≡ empty TEXT_ROOM }
    requires may { S.means.may writer.old.line_filter }
    requires fresh { S.means.put writer.old.line_filter [] writer.old.line_filter [] }
    ensures scribed { (diag diag_now : Received) → Filtered S.means writer.old.line_filter result
        (filter_streams (I.state input.old) (O.state output.old) diag)
        (filter_streams (I.state input.new) (O.state output.new) diag_now) }
    ensures causes { Causes result (I.state input.old) (I.state input.new)
        (O.state output.old) (O.state output.new) }
{
    match take_lines(lines, input, writer, output) {
        LinesEnd::Stopped(ending) => writer.stop(ending, output),
        LinesEnd::Ended => writer.end(Ending::Done, output),
        LinesEnd::ReadFailed => writer.end(Ending::ReadingFailed, output),
        LinesEnd::Endless => writer.end(Ending::TooLong, output),
    }
}

/// Gives the lines of an input to a line filter, writes its text, and reports how that ended.
///
/// The text is written before each read, which may wait, and if it grows large. All memory is
/// taken at the beginning.
pub fn run_filter<I: Source, O: Sink, D: Sink, S: LineFilter + Drop>(
    alloc: Global,
    line_filter: S,
    input: &mut I,
    output: &mut O,
    diag: &mut D,
) -> Ending
    requires may { S.means.may line_filter }
    requires fresh { S.means.put line_filter [] line_filter [] }
    ensures { FilterRan (λ e. FilterEndsBy S.means line_filter
        ((input.new ≡ input.old) × (output.new ≡ output.old)) e
        (filter_streams (I.state input.old) (O.state output.old) (D.state diag.old))
        (filter_streams (I.state input.new) (O.state output.new) (D.state diag.new)))
        (filter_streams (I.state input.old) (O.state output.old) (D.state diag.old))
        (filter_streams (I.state input.new) (O.state output.new) (D.state diag.new))
        (command_status result) }
{
    let Ok(mut room) = FilterRoom::make(alloc) else {
        return report_without_buffer(Ending::NoMemory, diag);
    };
    let mut writer = Writer {
        line_filter,
        text: room.text,
    };
    let ending = write_lines_of(&mut room.lines, input, &mut writer, output);
    report_ending(ending, &mut room.announced, diag)
}
