//! Worked examples: schedules, and what their worlds show, computed over the definitions. Contracts of functions with
//! no code.
ghost use Rattle.std.specs.Prelude.{ℕ, true, false, List, [], ◌∷◌, ◌++◌, map, codes, Some, None};
ghost use Rattle.asgi_types.specs.declared.end_kind.EndKind.TheVariants.{Returned, Faulted, Idle};
ghost use Rattle.asgi_types.specs.declared.facts.Framing.TheVariants.{Length, Chunked};
ghost use Rattle.asgi_types.specs.declared.incoming.Incoming.TheVariants.{HttpDisconnect, WsConnect, WsReceive, WsDisconnect};
ghost use Rattle.asgi_types.specs.declared.incoming.Payload.TheVariants as payload;
ghost use Rattle.asgi_types.specs.declared.outgoing.Outgoing.TheVariants.{ResponseBody, WsSend, WsClose, DenialStart, DenialBody};
ghost use Rattle.asgi_ws.specs.declared.messages.SentMessage.TheVariants as handed;
ghost use Rattle.asgi_exchange.specs.Examples.{Shows, ShowsChunks, usual_limits, limits_of_4_bytes, limits_of_blocks, facts_with, session_facts, session_answer, answer_handshake, hello_start, hello_body, echo_start, bare_start, accept, body_broken_off, chunk_too_large, chunks_arrive, chunked_bytes, answer_cut_off, body_cut_off, fault_at_once, fault_inside, client_closes, message_echoed, server_closes, task_ends, session_refused, session_denied, denial_faulted, session_faulted};
ghost use Rattle.asgi_exchange.specs.Http.{http};
ghost use Rattle.asgi_exchange.specs.Schedules.{run, Arrive};
ghost use Rattle.asgi_exchange.specs.Session as session;
ghost use Rattle.asgi_exchange.specs.Views.{empty_world};
ghost use Rattle.asgi_exchange.specs.WebSocket.{web_socket};

/// A body that is broken off, and one that grows too large inside a chunk: a disconnect is
/// received, and nothing of the body (ASGI HTTP and WebSocket message format 2.4, "Disconnect").
pub fn bodies_that_fail()
    ensures broken_off { Shows (run (http usual_limits (facts_with (Length 10))) body_broken_off empty_world) (HttpDisconnect ∷ []) (echo_start ∷ []) (echo_start ∷ []) [] }
    ensures too_large { Shows (run (http limits_of_4_bytes (facts_with Chunked)) chunk_too_large empty_world) (HttpDisconnect ∷ []) (echo_start ∷ []) (echo_start ∷ [])
        (codes "HTTP/1.1 413 Content Too Large\r\ncontent-length: 0\r\nconnection: close\r\n\r\n") }
{}

/// Chunks are echoed, cut into blocks, however they arrive (RFC 9112, section 7.1).
pub fn chunks_come_back()
    ensures whole { ShowsChunks (run (http limits_of_blocks (facts_with Chunked)) (chunks_arrive (Arrive chunked_bytes ∷ [])) empty_world) }
    ensures byte_by_byte { ShowsChunks (run (http limits_of_blocks (facts_with Chunked)) (chunks_arrive (map (λ byte. Arrive (byte ∷ [])) chunked_bytes)) empty_world) }
{}

/// After a write that failed nothing more is written, and a disconnect is received.
pub fn writes_that_fail()
    ensures answered { Shows (run (http usual_limits (facts_with (Length 0))) answer_cut_off empty_world) (HttpDisconnect ∷ [])
        (hello_start ∷ hello_body ∷ []) (hello_start ∷ hello_body ∷ []) (codes "HTTP/1.1 ") }
    ensures unanswered { Shows (run (http usual_limits (facts_with (Length 0))) body_cut_off empty_world) (HttpDisconnect ∷ [])
        (bare_start ∷ ResponseBody (codes "x") true ∷ []) (bare_start ∷ ResponseBody (codes "x") true ∷ []) (codes "HTTP/1.1 ") }
{}

/// The server responds for a task that faults at once; what the task had begun stays as it is.
pub fn tasks_that_fault()
    ensures at_once { Shows (run (http usual_limits (facts_with (Length 0))) fault_at_once empty_world) [] [] []
        (codes "HTTP/1.1 500 Internal Server Error\r\ncontent-length: 0\r\nconnection: close\r\n\r\n") }
    ensures inside { Shows (run (http usual_limits (facts_with (Length 0))) fault_inside empty_world) []
        (bare_start ∷ ResponseBody (codes "x") true ∷ []) (bare_start ∷ ResponseBody (codes "x") true ∷ [])
        (codes "HTTP/1.1 200 OK\r\ntransfer-encoding: chunked\r\n\r\n1\r\nx\r\n") }
{}

/// A close of the client is received with its code, or as 1005 if it has none, once more at each
/// receive; an end without a close is 1006 (RFC 6455, section 7.4.1). Events sent after it are
/// refused, and the server adds no close.
pub fn clients_that_close()
    ensures with_code { Shows (run (web_socket answer_handshake session_facts 16) (client_closes (Some (1000, []))) empty_world)
        (WsConnect ∷ WsDisconnect 1000 [] ∷ WsDisconnect 1000 [] ∷ []) (accept ∷ []) (accept ∷ []) (map session.Byte session_answer) }
    ensures empty { Shows (run (web_socket answer_handshake session_facts 16) (client_closes None) empty_world)
        (WsConnect ∷ WsDisconnect 1005 [] ∷ WsDisconnect 1005 [] ∷ []) (accept ∷ []) (accept ∷ []) (map session.Byte session_answer) }
    ensures without { Shows (run (web_socket answer_handshake session_facts 16) message_echoed empty_world)
        (WsConnect ∷ WsReceive (payload.Text (codes "Hello")) ∷ WsDisconnect 1006 [] ∷ [])
        (accept ∷ WsSend (payload.Text (codes "Hello")) ∷ []) (accept ∷ WsSend (payload.Text (codes "Hello")) ∷ [])
        (map session.Byte session_answer ++ session.Message (handed.Payload (payload.Text (codes "Hello"))) ∷ []) }
{}

/// An open session is closed by the application, or by the server if its task ended, but not if it
/// was given up. The server's code is 1000 if the task returned, and 1011 if it faulted (RFC 6455,
/// section 7.4.1).
pub fn servers_that_close()
    ensures said { Shows (run (web_socket answer_handshake session_facts 16) server_closes empty_world)
        (WsConnect ∷ WsDisconnect 1000 [] ∷ []) (accept ∷ WsClose 1000 (codes "bye") ∷ []) (accept ∷ WsClose 1000 (codes "bye") ∷ [])
        (map session.Byte session_answer ++ session.Message (handed.Close 1000 (codes "bye")) ∷ []) }
    ensures returned { Shows (run (web_socket answer_handshake session_facts 16) (task_ends Returned) empty_world)
        (WsConnect ∷ []) (accept ∷ []) (accept ∷ []) (map session.Byte session_answer ++ session.Message (handed.Close 1000 []) ∷ []) }
    ensures faulted { Shows (run (web_socket answer_handshake session_facts 16) (task_ends Faulted) empty_world)
        (WsConnect ∷ []) (accept ∷ []) (accept ∷ []) (map session.Byte session_answer ++ session.Message (handed.Close 1011 []) ∷ []) }
    ensures given_up { Shows (run (web_socket answer_handshake session_facts 16) (task_ends Idle) empty_world)
        (WsConnect ∷ []) (accept ∷ []) (accept ∷ []) (map session.Byte session_answer) }
{}

/// A session that is refused, one that is denied by a response, and tasks that fault inside the
/// response or before it: these leave 403, the response, what was begun of it, and 500.
pub fn sessions_that_never_open()
    ensures refused { Shows (run (web_socket answer_handshake session_facts 16) session_refused empty_world) [] (WsClose 1000 [] ∷ []) (WsClose 1000 [] ∷ [])
        (map session.Byte (codes "HTTP/1.1 403 Forbidden\r\ncontent-length: 0\r\nconnection: close\r\n\r\n")) }
    ensures denied { Shows (run (web_socket answer_handshake session_facts 16) session_denied empty_world) []
        (DenialStart 401 [] ∷ DenialBody (codes "no") false ∷ []) (DenialStart 401 [] ∷ DenialBody (codes "no") false ∷ [])
        (map session.Byte (codes "HTTP/1.1 401 Unauthorized\r\ntransfer-encoding: chunked\r\nconnection: close\r\n\r\n2\r\nno\r\n0\r\n\r\n")) }
    ensures faulted_inside { Shows (run (web_socket answer_handshake session_facts 16) denial_faulted empty_world) []
        (DenialStart 401 [] ∷ DenialBody (codes "no") true ∷ []) (DenialStart 401 [] ∷ DenialBody (codes "no") true ∷ [])
        (map session.Byte (codes "HTTP/1.1 401 Unauthorized\r\ntransfer-encoding: chunked\r\nconnection: close\r\n\r\n2\r\nno\r\n")) }
    ensures faulted { Shows (run (web_socket answer_handshake session_facts 16) session_faulted empty_world) (WsConnect ∷ [])
        (DenialStart 401 [] ∷ []) (DenialStart 401 [] ∷ [])
        (map session.Byte (codes "HTTP/1.1 500 Internal Server Error\r\ncontent-length: 0\r\nconnection: close\r\n\r\n")) }
{}
