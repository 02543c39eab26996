// The laws of every list of calls.
ghost use Rattle.engine_revival.specs.Laws.{LivesAreInOrder, GivenFits, AnswersFit, NoLifeIdles};
ghost use Rattle.engine_revival.specs.Canonical.{OwnOrdersAreTaken};
ghost use Rattle.engine_revival.specs.Talk.{TalkIsLawful};
ghost use Rattle.engine_revival.specs.Laws.{AwaitedIsGiven, LivesAreAsked, SearchesAreGiven, PressesAreGiven};
ghost use Rattle.engine_revival.specs.Laws.{ReadyIsAnswered};

/// The lines to each life are a dialogue in order, whatever comes.
pub fn lives_are_in_order()
    ensures { LivesAreInOrder }
{}

/// The lines up stand only if they are waited for, those of the engine and those that stand in for it.
pub fn lines_up_are_waited_for()
    ensures given { GivenFits }
    ensures answers { AnswersFit }
{}

/// No awaited `info` or `bestmove` of a living engine is lost: it is passed up, and the engine was asked for it
/// unless it boots.
pub fn living_engines_are_heard()
    ensures given { AwaitedIsGiven }
    ensures asked { LivesAreAsked }
{}

/// What is asked for reaches the engine: no life is idle while `bestmove` is waited for.
pub fn no_life_idles()
    ensures { NoLifeIdles }
{}

/// Each life searches what the upper search is, with the settings that were asked for last.
pub fn searches_are_given()
    ensures { SearchesAreGiven }
{}

/// Each life is given the buttons and the beginnings of games that came to it, and those alone.
pub fn presses_are_given()
    ensures { PressesAreGiven }
{}

/// An order in the spelling that the bridge writes is accepted, and handed on as it came.
pub fn own_orders_are_taken()
    ensures { OwnOrdersAreTaken }
{}

/// Each `isready` that is accepted has one `readyok`, in order, or the present life owes it, or it is held for one that
/// boots; where no life is left each has it.
pub fn ready_is_answered()
    ensures { ReadyIsAnswered }
{}

/// All this holds of the talk that the events of any script bring about.
pub fn talk_is_lawful()
    ensures { TalkIsLawful }
{}
