// Laws of the dialogue: functions that do nothing, whose contracts hold of every turn and of every list of exchanges.
ghost use Rattle.search_epochs.specs.Laws.{ChosenIsLawful, CurrentIsUnspent, CurrentServes, DialogueIsUnique};
ghost use Rattle.search_epochs.specs.Laws.{GoIsFenced, SearchIsFenced};
ghost use Rattle.search_epochs.specs.Laws.{GoFollowsPosition, GoneGetsNothing, IdleEngineGetsOrders, LawfulIsChosen};
ghost use Rattle.search_epochs.specs.Laws.{LiveIsCurrent, MidIsKept, MoveIsOwed, NothingIsLeft, PonderGetsHit};
ghost use Rattle.search_epochs.specs.Laws.{QuitOrderIsLast, SearchGetsStop, SettledIsOnly, SettledIsUnique, StoppedIsForMove};
ghost use Rattle.search_epochs.specs.Laws.{StopOrderComesOnce, TicketsAreWithin, TurnIsKept, TurnIsSettled, DialogueIsKept};

/// One turn: what is kept after the event, and what is chosen then.
pub fn whole_turn()
    ensures mid { MidIsKept }
    ensures settled { TurnIsSettled }
    ensures kept { TurnIsKept }
    ensures unique { SettledIsUnique }
    ensures only { SettledIsOnly }
{}

/// Whole dialogues: the choices are lawful, the only lawful ones, and kept without tickets.
pub fn whole_dialogue()
    ensures lawful { ChosenIsLawful }
    ensures chosen { LawfulIsChosen }
    ensures kept { DialogueIsKept }
    ensures unique { DialogueIsUnique }
    ensures within { TicketsAreWithin }
{}

/// The open search of a dialogue.
pub fn open_search()
    ensures live { LiveIsCurrent }
    ensures stopped { StoppedIsForMove }
    ensures unspent { CurrentIsUnspent }
    ensures once { StopOrderComesOnce }
{}

/// The call and what is owed.
pub fn served_call()
    ensures left { NothingIsLeft }
    ensures serves { CurrentServes }
    ensures owed { MoveIsOwed }
{}

/// The engine that each order reaches.
pub fn order_places()
    ensures idle { IdleEngineGetsOrders }
    ensures stop { SearchGetsStop }
    ensures hit { PonderGetsHit }
    ensures gone { GoneGetsNothing }
    ensures paired { GoFollowsPosition }
    ensures quit { QuitOrderIsLast }
{}

/// With FenceStops on: a search begins only where no `stop` is unfenced, and in an open one a `stop` is unfenced if and
/// only if the search is stopped.
pub fn fenced_searches()
    ensures begun { GoIsFenced }
    ensures searching { SearchIsFenced }
{}
