// The lines of lawful traces.
ghost use Rattle.trace_laws.specs.OneLine.{TracesWriteLines};

use policy_rules::Settings;

/// A law: each reply and each order of a lawful trace is one line. It has no line feed, and at most 131,070 bytes, so
/// that after its mark it is one line of a script.
pub fn written_texts_are_lines(settings: Settings)
    ensures { TracesWriteLines settings }
{
    let _ = settings;
}
