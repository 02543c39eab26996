// The laws of every lawful trace: functions that do nothing, whose contracts are laws.
ghost use Rattle.adapter_core.specs.Alone.{DeskIsAlone, IsApartFromEngine, RepliesAreAlone};
ghost use Rattle.adapter_core.specs.Shown.{MovesAreShownInTime, MovesAreShownOnce, RefusedLinesChangeNothing};

use policy_rules::Settings;

/// A law: a move is shown exactly in the step where the search for a move that was begun or renewed for the present epoch answers with
/// a legal move, and once. A refused line changes nothing.
pub fn moves_are_shown_in_time(settings: Settings)
    ensures shown { MovesAreShownInTime settings }
    ensures once { MovesAreShownOnce settings }
    ensures refused { RefusedLinesChangeNothing settings }
{
    let _ = settings;
}

/// A law: if the engine is there and answers no search, and no line was refused for too many settings, the game, the mode, the flags,
/// the clocks and the held pings are those that the lines of the interface alone give, and so are the replies to these lines, except
/// those that report on the engine. So they do not depend on when the engine speaks.
pub fn interface_alone(settings: Settings)
    ensures desk { DeskIsAlone settings }
    ensures apart { IsApartFromEngine settings }
    ensures replies { RepliesAreAlone settings }
{
    let _ = settings;
}
