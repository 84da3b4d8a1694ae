// What the words of a catalog say, and what they say of a machine.

ghost use Rattle.catalog.specs.Laws.{CreatesAreJudged, CreatesSuit, NamesTurn, OrdersAreOne, OrdersAscend, OrdersKeep, PlacesAreNamed};

/// Among tables of which no two have one name, the order does not matter to a name.
pub fn names_turn()
    ensures { NamesTurn }
{}

/// The table of a name stands at its place.
pub fn places_are_named()
    ensures { PlacesAreNamed }
{}

/// What is decided of a create is what the machine judges whose tables these are, newest first.
pub fn creates_are_judged()
    ensures { CreatesAreJudged }
{}

/// The table that a create would make is one that the machine may make.
pub fn creates_suit()
    ensures { CreatesSuit }
{}

/// The order of names ascends, has the same tables, and is the only one that does.
pub fn orders_are_by_name()
    ensures ascend { OrdersAscend }
    ensures keep { OrdersKeep }
    ensures one { OrdersAreOne }
{}
