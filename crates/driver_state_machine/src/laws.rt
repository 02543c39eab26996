// Laws of every list of calls: functions that do nothing, whose contracts are the laws.
ghost use Rattle.driver_state_machine.specs.Laws.{AnsweredOnce, OpenIsBusy, MovesAreIgnored, NoMoveHasCause};
ghost use Rattle.driver_state_machine.specs.Laws.{AwaitedIsUnanswered, AwaitedWasWritten, PongsComeFirst};
ghost use Rattle.driver_state_machine.specs.Laws.{PromptsAreDue, PromptsOnce, PromptsHaveCause};

/// Each `go` that is accepted gets one `bestmove` at most, and none comes without a `go`.
pub fn searches_are_answered_once()
    ensures { AnsweredOnce }
{}

/// A search is open only while the engine thinks, during an analysis that was not stopped and, if it ponders, got no
/// `ponderhit`, or as long as a `ping` has had no `pong`.
pub fn open_searches_are_busy()
    ensures { OpenIsBusy }
{}

/// The engine's lines outside of thinking on a move give nothing, and `bestmove 0000` has its causes.
pub fn when_nothing_is_given()
    ensures ignored { MovesAreIgnored }
    ensures no_move { NoMoveHasCause }
{}

/// The `ping` that is awaited is the one written last, as long as its `pong` has not come; and before that the engine is set
/// neither to think nor to analyse.
pub fn searches_wait_for_pongs()
    ensures written { AwaitedWasWritten }
    ensures unanswered { AwaitedIsUnanswered }
    ensures first { PongsComeFirst }
{}

/// `?` is written once a search at most, and only on a `stop` or at the first thinking line of the depth that the search is
/// limited to; and while the engine thinks, it was written if one of these came.
pub fn moves_are_asked_for_once()
    ensures due { PromptsAreDue }
    ensures once { PromptsOnce }
    ensures cause { PromptsHaveCause }
{}
