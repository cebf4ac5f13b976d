//! What the conditions of the steps are for: with one of them left out, a schedule violates what every schedule keeps.
//! Contracts of functions with no code.
ghost use Rattle.std.specs.Prelude.{true, [], ◌∷◌, codes, Some};
ghost use Rattle.asgi_types.specs.declared.end_kind.EndKind.TheVariants.{Returned};
ghost use Rattle.asgi_types.specs.declared.facts.Framing.TheVariants.{Length};
ghost use Rattle.asgi_types.specs.declared.incoming.Payload.TheVariants as payload;
ghost use Rattle.asgi_types.specs.declared.outgoing.Outgoing.TheVariants.{WsSend, WsClose};
ghost use Rattle.asgi_pipes.specs.declared.items.OutItem.TheVariants.{Event, Ended};
ghost use Rattle.asgi_exchange.specs.Examples.{usual_limits, facts_with, hello_start, hello_body, accept};
ghost use Rattle.asgi_exchange.specs.Halves.{ConnKeeps};
ghost use Rattle.asgi_exchange.specs.Http.{http};
ghost use Rattle.asgi_exchange.specs.Keeps.{IsExchange};
ghost use Rattle.asgi_exchange.specs.LeftOut.{arrive_ever, offer_ever, break_ever, break_early, take_ever, say_unjudged, say_unheard, say_ever, with_conn, with_app, bare_session};
ghost use Rattle.asgi_ws.specs.declared.messages.Msg.TheVariants.{Text, Close};
ghost use Rattle.asgi_exchange.specs.Schedules.{run, Arrive, Offer, BreakOff, Take, Hear, Say, End, conn_run, Takes, Writes};
ghost use Rattle.asgi_exchange.specs.Views.{ByInput, ByCut, empty_world, empty_conn};

/// What a break by the input relies on: all that is due was offered before it, nothing more is due
/// after it, and no other break follows. Otherwise the disconnect that was received is not the one
/// of its cause.
pub fn breaks_are_last()
    ensures after_all_that_is_due { (let x = http usual_limits (facts_with (Length 2)) in
        ¬ (IsExchange x (run x (Hear ∷ []) (with_conn (run x (Arrive (codes "ab") ∷ []) empty_world) (λ conn. break_early x conn))))) }
    ensures nothing_arrives_after { ¬ (IsExchange bare_session
        (with_conn (run bare_session (Offer ∷ BreakOff ByInput ∷ Hear ∷ Hear ∷ []) empty_world) (λ conn. arrive_ever conn (Text (codes "late") ∷ [])))) }
    ensures once { ¬ (IsExchange bare_session
        (with_conn (run bare_session (Offer ∷ Arrive (Close (Some (1000, [])) ∷ []) ∷ BreakOff ByInput ∷ Hear ∷ Hear ∷ []) empty_world) (λ conn. break_ever bare_session conn ByCut))) }
    ensures nothing_offered_after { ¬ (ConnKeeps bare_session
        (offer_ever bare_session (let w = run bare_session (Arrive (Text (codes "late") ∷ []) ∷ BreakOff ByCut ∷ []) empty_world in w.conn) true)) }
{}

/// What the end of a task relies on: nothing is sent and nothing is taken after it. Otherwise not
/// all that was sent was taken, or what was written is no beginning of what is to be written.
pub fn ends_are_last()
    ensures nothing_said_after { (let x = http usual_limits (facts_with (Length 0)) in
        ¬ (IsExchange x (run x (Take ∷ []) (with_app (run x (End Returned ∷ []) empty_world) (λ app. say_ever x app hello_start true))))) }
    ensures nothing_taken_after { ¬ (ConnKeeps bare_session
        (take_ever (conn_run bare_session (Takes (Some (Event accept)) ∷ Takes (Some (Ended Returned)) ∷ Writes 1 ∷ []) empty_conn) (Some (Event (WsSend (payload.Text (codes "late"))))))) }
{}

/// Each event that is sent passes the judge, which knows of a received disconnect. Otherwise what
/// was sent is not lawful, or one disconnect is received after another.
pub fn events_are_judged()
    ensures each_passes { (let x = http usual_limits (facts_with (Length 0)) in
        ¬ (IsExchange x (with_app empty_world (λ app. say_unjudged app hello_body true)))) }
    ensures none_after_a_heard_disconnect { ¬ (IsExchange bare_session
        (run bare_session (Hear ∷ []) (with_app
        (run bare_session (Offer ∷ Hear ∷ Say accept ∷ Arrive (Close (Some (1000, [])) ∷ []) ∷ BreakOff ByInput ∷ Hear ∷ []) empty_world)
        (λ app. say_unheard bare_session app (WsClose 1001 []) true)))) }
{}
