//! Laws of lawful lists and of verdicts, over every list: contracts of functions with no code.
ghost use Rattle.asgi_protocol.specs.Laws.{ClosedIsLast, LawfulWhereEachPasses, LawfulListsAreDecided, FrontsAreLawful, NothingPassesAfterClosed, VerdictsAreOfTable, TestsAgree};

/// No lawful list goes on after a closed one.
pub fn closed_is_last()
    ensures { ClosedIsLast }
{}

/// A list is lawful exactly if each of its events passes after those before it.
pub fn lawful_where_each_passes()
    ensures { LawfulWhereEachPasses }
{}

/// One function of kind, facts and list decides which lists are lawful.
pub fn lawful_lists_are_decided()
    ensures { LawfulListsAreDecided }
{}

/// Each prefix of a lawful list is lawful.
pub fn fronts_of_lawful_lists_are_lawful()
    ensures { FrontsAreLawful }
{}

/// Nothing passes after a closed list: in HTTP each event is ignored there (ASGI HTTP and WebSocket
/// message format 2.4, "Response Body"), in other scopes it is refused.
pub fn nothing_passes_after_a_closed_list()
    ensures { NothingPassesAfterClosed }
{}

/// Every verdict is one of the table, and `Ignored` is given in HTTP alone.
pub fn verdicts_are_of_table()
    ensures { VerdictsAreOfTable }
{}

/// The tests by which a verdict is found agree with the shapes of the lists.
pub fn tests_agree()
    ensures { TestsAgree }
{}
