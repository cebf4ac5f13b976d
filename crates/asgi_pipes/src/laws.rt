//! Laws of what is received, over every list: contracts of functions with no code.
ghost use Rattle.asgi_pipes.specs.Laws.{HeardIsOfferedInOrder, ClosedScopeHearsItsDisconnect, DisconnectIsHeardAgain, OnlyEqualDisconnectsFollow, HeardHasOneReading, PlainPairsKeepOrder};

/// What is received is a beginning of what was offered, and then equal disconnects.
pub fn heard_is_offered_in_order()
    ensures { HeardIsOfferedInOrder }
{}

/// After the application's own closing event its disconnect is received at once (ASGI HTTP and
/// WebSocket message format 2.4, "Disconnect"). In a lifespan scope there is none.
pub fn closed_scope_hears_its_disconnect()
    ensures { ClosedScopeHearsItsDisconnect }
{}

/// A received disconnect is received again, whatever waits in the queue. In a lifespan scope there
/// is none.
pub fn disconnect_is_heard_again()
    ensures { DisconnectIsHeardAgain }
{}

/// After a received disconnect only equal ones follow.
pub fn only_equal_disconnects_follow()
    ensures { OnlyEqualDisconnectsFollow }
{}

/// What was received can be read in one way only.
pub fn heard_has_one_reading()
    ensures { HeardHasOneReading }
{}

/// The ends of a plain pair keep the order of both directions at any moment.
pub fn plain_pairs_keep_order()
    ensures { PlainPairsKeepOrder }
{}
