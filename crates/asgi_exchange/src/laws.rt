//! Laws of an exchange, over every list: contracts of functions with no code.
ghost use Rattle.std.specs.Prelude.{◌≡◌, ◌++◌, ◌∷◌, [], map, List, ℕ, Option, true, false, Some, None};
ghost use Rattle.asgi_types.specs.declared.facts.Facts.{Facts};
ghost use Rattle.asgi_types.specs.declared.incoming.Incoming.{Incoming};
ghost use Rattle.asgi_types.specs.declared.limits.Limits.{Limits};
ghost use Rattle.asgi_types.specs.declared.outgoing.Outgoing.{Outgoing};
ghost use Rattle.asgi_types.specs.declared.scope.Kind.TheVariants.{Http, WebSocket};
ghost use Rattle.asgi_protocol.specs.Lawful.{IsLawful};
ghost use Rattle.asgi_protocol.specs.Passing.{passes};
ghost use Rattle.asgi_request.specs.declared.next.Next.{Next};
ghost use Rattle.asgi_request.specs.Opened.{HasOpened};
ghost use Rattle.asgi_request.specs.Reading.{Reading, StandsFor, AllGiven};
ghost use Rattle.asgi_types.specs.declared.end_kind.EndKind.{EndKind};
ghost use Rattle.asgi_pipes.specs.Disconnects.{Hears};
ghost use Rattle.asgi_pipes.specs.Items.{items_of};
ghost use Rattle.asgi_pipes.specs.Queues.{KeepsOrder};
ghost use Rattle.asgi_exchange.specs.Exchange.{Exchange, IsSteady};
ghost use Rattle.asgi_exchange.specs.Halves.{ConnKeeps};
ghost use Rattle.asgi_exchange.specs.Http.{http};
ghost use Rattle.asgi_exchange.specs.HttpExchange.{IsHttpExchange};
ghost use Rattle.asgi_exchange.specs.Items.{end_of};
ghost use Rattle.asgi_exchange.specs.Keeps.{IsExchange};
ghost use Rattle.asgi_ws.specs.declared.messages.Msg.{Msg};
ghost use Rattle.asgi_ws.specs.declared.messages.Msg.TheVariants.{Close};
ghost use Rattle.asgi_exchange.specs.Messages.{events_in, has_close, session_events, disconnect_of, session_disconnect};
ghost use Rattle.asgi_exchange.specs.Schedules.{Step, run, ConnStep, conn_run, AppStep, app_run, ConnGoesOn};
ghost use Rattle.asgi_exchange.specs.Session.{Output, Handshake, accepted_session, session_output, event_output};
ghost use Rattle.asgi_exchange.specs.SessionExchange.{IsSessionExchange};
ghost use Rattle.asgi_exchange.specs.Steps.{is_by_input, arrive, offer, break_off};
ghost use Rattle.asgi_exchange.specs.Views.{ConnView, ByInput, empty_world, empty_conn, empty_app};
ghost use Rattle.asgi_exchange.specs.WebSocket.{web_socket};

// ---- one exchange

/// However the bytes of a request or the messages of a session arrive, and however the turns of the
/// connection and the application interleave: what was received is a beginning of what was due, and
/// then only disconnects with their cause; what was sent is lawful; what was taken is a beginning
/// of it; and what was written is a beginning of the text of what was taken.
pub fn every_schedule()
    ensures http { (limits : Limits) (facts : Facts) (steps : List (Step ℕ)) → IsHttpExchange limits facts (run (http limits facts) steps empty_world) }
    ensures web_socket { (handshake : Handshake) (facts : Facts) (ring : ℕ) (steps : List (Step Msg))
        → IsSessionExchange handshake facts (run (web_socket handshake facts ring) steps empty_world) }
{}

/// Any run of the connection's half and any run of the application's half, whatever their queues
/// returned in each step, make an exchange if both queues keep their order.
pub fn halves_make_an_exchange()
    ensures http { (limits : Limits) (facts : Facts) (conn_steps : List (ConnStep ℕ)) (app_steps : List AppStep) (places_in places_out left_in left_out : ℕ)
        → (let conn = conn_run (http limits facts) conn_steps empty_conn in let app = app_run (http limits facts) app_steps empty_app in
        KeepsOrder places_in conn.offered app.pulled left_in → KeepsOrder places_out app.put conn.got left_out
        → IsHttpExchange limits facts (record { conn = conn; app = app })) }
    ensures web_socket { (handshake : Handshake) (facts : Facts) (ring : ℕ) (conn_steps : List (ConnStep Msg)) (app_steps : List AppStep) (places_in places_out left_in left_out : ℕ)
        → (let conn = conn_run (web_socket handshake facts ring) conn_steps empty_conn in let app = app_run (web_socket handshake facts ring) app_steps empty_app in
        KeepsOrder places_in conn.offered app.pulled left_in → KeepsOrder places_out app.put conn.got left_out
        → IsSessionExchange handshake facts (record { conn = conn; app = app })) }
{}

/// The same from the clauses of `meet`. No step of the application's half is needed: what it
/// received and sent, its end keeps by itself. Of the connection's half the law needs what each run
/// of its steps keeps, from the start and from where it is.
pub fn met_halves_make_an_exchange()
    ensures met { (limits : Limits) (facts : Facts) (conn : ConnView ℕ ℕ) (said : List Outgoing) (ended : Option EndKind)
        (pulled heard : List Incoming) (places_in places_out left_in left_out : ℕ)
        → ConnKeeps (http limits facts) conn
        → KeepsOrder places_in conn.offered pulled left_in → KeepsOrder places_out (items_of said ended) conn.got left_out
        → Hears Http said pulled heard → IsLawful Http facts said
        → IsHttpExchange limits facts (record { conn = conn; app = record { pulled = pulled; heard = heard; put = items_of said ended } }) }
    ensures runs { (limits : Limits) (facts : Facts) (steps : List (ConnStep ℕ)) → ConnKeeps (http limits facts) (conn_run (http limits facts) steps empty_conn) }
    ensures goes_on { (limits : Limits) (facts : Facts) (old new : ConnView ℕ ℕ)
        → ConnKeeps (http limits facts) old → ConnGoesOn (http limits facts) old new → ConnKeeps (http limits facts) new }
    ensures web_socket_met { (handshake : Handshake) (facts : Facts) (ring : ℕ) (conn : ConnView Msg Output) (said : List Outgoing) (ended : Option EndKind)
        (pulled heard : List Incoming) (places_in places_out left_in left_out : ℕ)
        → ConnKeeps (web_socket handshake facts ring) conn
        → KeepsOrder places_in conn.offered pulled left_in → KeepsOrder places_out (items_of said ended) conn.got left_out
        → Hears WebSocket said pulled heard → IsLawful WebSocket facts said
        → IsSessionExchange handshake facts (record { conn = conn; app = record { pulled = pulled; heard = heard; put = items_of said ended } }) }
    ensures web_socket_runs { (handshake : Handshake) (facts : Facts) (ring : ℕ) (steps : List (ConnStep Msg))
        → ConnKeeps (web_socket handshake facts ring) (conn_run (web_socket handshake facts ring) steps empty_conn) }
    ensures web_socket_goes_on { (handshake : Handshake) (facts : Facts) (ring : ℕ) (old new : ConnView Msg Output)
        → ConnKeeps (web_socket handshake facts ring) old → ConnGoesOn (web_socket handshake facts ring) old new → ConnKeeps (web_socket handshake facts ring) new }
{}

/// What is fed to a reader arrives. The event that the reader returns after those offered is the
/// next that is due. If the reader needs more, has returned the whole request or has refused it,
/// nothing more is due, so the input may break.
pub fn results_are_steps()
    ensures arrives { (limits : Limits) (bytes piece : List ℕ) (opened : List Next) (facts : Facts) (conn : ConnView ℕ ℕ)
        → HasOpened limits bytes opened facts.framing conn.arrived → is_by_input conn.broken ≡ false
        → (let new = arrive (http limits facts) conn piece in
        (new ≡ record conn { arrived = conn.arrived ++ piece }) × HasOpened limits (bytes ++ piece) opened facts.framing new.arrived) }
    ensures offers { (reader : Reading) (bytes : List ℕ) (opened : List Next) (facts : Facts) (conn : ConnView ℕ ℕ) (event : Incoming)
        → HasOpened reader.limits bytes opened facts.framing conn.arrived → StandsFor reader bytes (opened ++ map Next.Event (conn.offered ++ event ∷ []))
        → conn.broken ≡ None → offer (http reader.limits facts) conn true ≡ record conn { offered = conn.offered ++ event ∷ [] } }
    ensures breaks { (reader : Reading) (bytes : List ℕ) (opened : List Next) (facts : Facts) (conn : ConnView ℕ ℕ)
        → HasOpened reader.limits bytes opened facts.framing conn.arrived → AllGiven reader bytes (opened ++ map Next.Event conn.offered)
        → conn.broken ≡ None → end_of conn.got ≡ None
        → break_off (http reader.limits facts) conn ByInput ≡ record conn { offered = conn.offered ++ Incoming.HttpDisconnect ∷ []; broken = Some ByInput } }
    ensures whole { (reader : Reading) (bytes : List ℕ) (opened : List Next) (facts : Facts) (conn : ConnView ℕ ℕ)
        → HasOpened reader.limits bytes opened facts.framing conn.arrived → StandsFor reader bytes (opened ++ (map Next.Event conn.offered ++ Next.Whole ∷ []))
        → conn.broken ≡ None → end_of conn.got ≡ None
        → break_off (http reader.limits facts) conn ByInput ≡ record conn { offered = conn.offered ++ Incoming.HttpDisconnect ∷ []; broken = Some ByInput } }
    ensures refused { (reader : Reading) (bytes : List ℕ) (opened : List Next) (facts : Facts) (conn : ConnView ℕ ℕ) (status : ℕ)
        → HasOpened reader.limits bytes opened facts.framing conn.arrived → StandsFor reader bytes (opened ++ (map Next.Event conn.offered ++ Next.Bad status ∷ []))
        → conn.broken ≡ None → end_of conn.got ≡ None
        → break_off (http reader.limits facts) conn ByInput ≡ record conn { offered = conn.offered ++ Incoming.HttpDisconnect ∷ []; broken = Some ByInput } }
{}

/// A message that the message layer returns arrives. Its event is the next that is due, if no close
/// came before it; and if all that is due was offered, the input may break: by the client's close,
/// or with 1006 if there is none (RFC 6455, section 7.1.5).
pub fn messages_are_steps()
    ensures arrives { (handshake : Handshake) (facts : Facts) (ring : ℕ) (conn : ConnView Msg Output) (message : Msg) → is_by_input conn.broken ≡ false
        → arrive (web_socket handshake facts ring) conn (message ∷ []) ≡ record conn { arrived = conn.arrived ++ message ∷ [] } }
    ensures is_due { (messages : List Msg) (message : Msg) → has_close messages ≡ false → session_events (messages ++ message ∷ []) ≡ session_events messages ++ events_in message }
    ensures offers { (handshake : Handshake) (facts : Facts) (ring : ℕ) (conn : ConnView Msg Output) (message : Msg) (event : Incoming) (arrived : List Msg)
        → has_close arrived ≡ false → events_in message ≡ event ∷ [] → conn.arrived ≡ arrived ++ message ∷ [] → conn.offered ≡ session_events arrived → conn.broken ≡ None
        → offer (web_socket handshake facts ring) conn true ≡ record conn { offered = conn.offered ++ event ∷ [] } }
    ensures breaks { (handshake : Handshake) (facts : Facts) (ring : ℕ) (conn : ConnView Msg Output)
        → conn.offered ≡ session_events conn.arrived → conn.broken ≡ None → end_of conn.got ≡ None
        → break_off (web_socket handshake facts ring) conn ByInput ≡ record conn { offered = conn.offered ++ session_disconnect conn.arrived ∷ []; broken = Some ByInput } }
    ensures closed { (messages : List Msg) (close : Option (ℕ × List ℕ)) → has_close messages ≡ false
        → session_disconnect (messages ++ Close close ∷ []) ≡ disconnect_of (Some close) }
    ensures unclosed { (messages : List Msg) → has_close messages ≡ false → session_disconnect messages ≡ Incoming.WsDisconnect 1006 [] }
{}

// ---- any exchange

/// Whatever a steady exchange makes of its lists: each schedule of it is an exchange; so are any
/// runs of its halves, if both queues keep their order; and so is what the connection kept, with
/// the clauses of `meet` on the application.
pub fn schedules_of_steady_exchanges<A, W>()
    ensures schedules { (x : Exchange A W) → IsSteady x → (steps : List (Step A)) → IsExchange x (run x steps empty_world) }
    ensures halves { (x : Exchange A W) → IsSteady x → (conn_steps : List (ConnStep A)) (app_steps : List AppStep) (places_in places_out left_in left_out : ℕ)
        → (let conn = conn_run x conn_steps empty_conn in let app = app_run x app_steps empty_app in
        KeepsOrder places_in conn.offered app.pulled left_in → KeepsOrder places_out app.put conn.got left_out
        → IsExchange x (record { conn = conn; app = app })) }
    ensures met { (x : Exchange A W) → IsSteady x → (conn : ConnView A W) (said : List Outgoing) (ended : Option EndKind)
        (pulled heard : List Incoming) (places_in places_out left_in left_out : ℕ)
        → ConnKeeps x conn
        → KeepsOrder places_in conn.offered pulled left_in → KeepsOrder places_out (items_of said ended) conn.got left_out
        → Hears x.kind said pulled heard → IsLawful x.kind x.facts said
        → IsExchange x (record { conn = conn; app = record { pulled = pulled; heard = heard; put = items_of said ended } }) }
    ensures runs { (x : Exchange A W) → IsSteady x → (steps : List (ConnStep A)) → ConnKeeps x (conn_run x steps empty_conn) }
    ensures goes_on { (x : Exchange A W) → IsSteady x → (old new : ConnView A W) → ConnKeeps x old → ConnGoesOn x old new → ConnKeeps x new }
{}

/// An HTTP exchange is steady, whatever its limits and facts.
pub fn http_is_steady()
    ensures { (limits : Limits) (facts : Facts) → IsSteady (http limits facts) }
{}

/// The same for a WebSocket exchange, whatever the text of its handshake is.
pub fn web_socket_is_steady()
    ensures { (handshake : Handshake) (facts : Facts) (ring : ℕ) → IsSteady (web_socket handshake facts ring) }
{}

// ---- what is written for a session

/// What is written for a session grows by the part of each event that is lawful in its place, and
/// by nothing otherwise.
pub fn session_events_add_their_output()
    ensures lawful { (handshake : Handshake) (facts : Facts) (events : List Outgoing) (event : Outgoing) → passes WebSocket facts (accepted_session facts events) event ≡ true
        → session_output handshake facts (events ++ event ∷ []) ≡ session_output handshake facts events ++ event_output handshake facts (accepted_session facts events) event }
    ensures other { (handshake : Handshake) (facts : Facts) (events : List Outgoing) (event : Outgoing) → passes WebSocket facts (accepted_session facts events) event ≡ false
        → session_output handshake facts (events ++ event ∷ []) ≡ session_output handshake facts events }
{}

/// A lawful list of events of a session is accepted whole.
pub fn lawful_sessions_are_accepted()
    ensures { (facts : Facts) (events : List Outgoing) → IsLawful WebSocket facts events → accepted_session facts events ≡ events }
{}
