// Searches of lawful traces.
ghost use Rattle.trace_laws.specs.Dialogue.{SearchesServe, SearchesShowOnce, StopLineComesOnce};
ghost use Rattle.trace_laws.specs.Dialogue.{TracesAreDialogues, TracesAreSteady};
ghost use Rattle.trace_laws.specs.Fences.{SearchesAreFenced, StoppedSearchIsUnfenced};

use policy_rules::Settings;

/// A law: each lawful trace is a lawful dialogue, and a steady one, so that all laws of dialogues hold of it.
pub fn traces_are_dialogues(settings: Settings)
    ensures dialogues { TracesAreDialogues settings }
    ensures steady { TracesAreSteady settings }
{
    let _ = settings;
}

/// A law: an open current search is of the kind that is called for, and was begun or renewed for just that call, hint
/// and all.
pub fn searches_serve(settings: Settings)
    ensures serve { SearchesServe settings }
{
    let _ = settings;
}

/// A law: from a `go` to the next at most one `stop` is written, and at most one move is shown.
pub fn searches_end_once(settings: Settings)
    ensures stops { StopLineComesOnce settings }
    ensures shown { SearchesShowOnce settings }
{
    let _ = settings;
}

/// A law: with FenceStops on, between a `stop` and the next `go` an `isready` was written after that `stop` and its
/// `readyok` was read; and in an open search a `stop` is unfenced exactly if the search is stopped.
pub fn searches_are_fenced(settings: Settings)
    ensures fenced { SearchesAreFenced settings }
    ensures stopped { StoppedSearchIsUnfenced settings }
{
    let _ = settings;
}
