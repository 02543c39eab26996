// The laws of held orders, and of the orders that are asked for.
ghost use Rattle.option_map.specs.WaitingOrders.Held.{HoldsLast, Stays, HoldsAsked, OrderReadsBack, StayOrders};
ghost use Rattle.option_map.specs.WaitingOrders.Asked.{PathsAreSetAsStrings};
ghost use Rattle.option_map.specs.DeclaredOptions.Spelled.{StayDeclared, AskedAreSpelled, SwitchesAreSpelled, StaySpelled};

/// For each option with a value, and for `ucinewgame`, exactly the order that was asked for last is held. What no
/// later order takes the place of stays held.
pub fn last_orders_are_held()
    ensures last { HoldsLast }
    ensures stays { Stays }
    ensures asked { HoldsAsked }
{}

/// If the options were declared by lines of an engine, each order that a line asks for may be written: it is read
/// back from its text, which is one line of bounded length.
pub fn asked_orders_are_spelled()
    ensures declared { StayDeclared }
    ensures asked { AskedAreSpelled }
    ensures switches { SwitchesAreSpelled }
    ensures reads { OrderReadsBack }
    ensures orders { StayOrders }
    ensures held { StaySpelled }
{}

/// What a line asks for is the same whatever the features of string options are called: a path or a file is set as
/// any string is.
pub fn paths_are_set_as_strings()
    ensures { PathsAreSetAsStrings }
{}
