//! Responses with trailers: which of their events pass, what is written, and what follows.
use crate::conversation::{Row, Under, check_cut};
use asgi_conn::Outcome;
use asgi_fakes::texts::{
    END, GET, GET_TAKING_TRAILERS, LAST_CHUNK, PLAIN_HEAD, POST, SERVER_ERROR,
};
use asgi_fakes::{App, Heard, Said, Step};
use std::test::Fail;

const START: Said = Said::Announce(200, &[]);

const SUM: Said = Said::Trailers(&[("x-sum", "7")]);

const LAST_SUM: Said = Said::LastTrailers(&[("x-sum", "7")]);

/// The content `x`, and two trailers.
const TRAILS: App = App::Sends(&[
    START,
    Said::Last("x"),
    SUM,
    Said::LastTrailers(&[("x-end", "y")]),
]);

/// The chunk `x`.
const X: &[u8] = b"1\r\nx\r\n";

/// The last chunk, and a trailer section with two fields.
const SECTION: &[u8] = b"0\r\nx-sum: 7\r\nx-end: y\r\n\r\n";

/// The last chunk alone.
const NO_SECTION: &[u8] = b"0\r\n";

const SENT: &[Row] = &[
    (
        Under::Usual,
        TRAILS,
        &[GET_TAKING_TRAILERS],
        &[PLAIN_HEAD, X, SECTION],
        (Outcome::Finished, 1, 0),
    ),
    // The client takes none.
    (
        Under::Usual,
        TRAILS,
        &[GET],
        &[PLAIN_HEAD, X, LAST_CHUNK],
        (Outcome::Finished, 1, 0),
    ),
    (
        Under::Usual,
        TRAILS,
        &[GET_TAKING_TRAILERS, GET, GET_TAKING_TRAILERS],
        &[
            PLAIN_HEAD, X, SECTION, PLAIN_HEAD, X, LAST_CHUNK, PLAIN_HEAD, X, SECTION,
        ],
        (Outcome::Finished, 3, 0),
    ),
    // The connection option of RFC 9110, section 10.1.4, which closes nothing.
    (
        Under::Usual,
        TRAILS,
        &[
            b"GET / HTTP/1.1\r\nHost: a\r\nConnection: TE\r\nTE: trailers\r\n\r\n",
            GET,
        ],
        &[PLAIN_HEAD, X, SECTION, PLAIN_HEAD, X, LAST_CHUNK],
        (Outcome::Finished, 2, 0),
    ),
    (
        Under::Usual,
        TRAILS,
        &[
            b"GET / HTTP/1.1\r\nHost: a\r\nTE: trailers\r\nConnection: TE, close\r\n\r\n",
            GET,
        ],
        &[
            b"HTTP/1.1 200 OK\r\ntransfer-encoding: chunked\r\nconnection: close\r\n\r\n",
            X,
            SECTION,
        ],
        (Outcome::Finished, 1, 0),
    ),
    (
        Under::Usual,
        TRAILS,
        &[
            POST,
            b"TE: trailers\r\nContent-Length: 3\r\n",
            END,
            b"abc",
            GET,
        ],
        &[PLAIN_HEAD, X, SECTION, PLAIN_HEAD, X, LAST_CHUNK],
        (Outcome::Finished, 2, 0),
    ),
];

#[test]
fn trailers_follow_the_content_where_the_client_takes_them(rt: HostRuntime) -> Result<(), Fail> {
    check_cut(&rt, SENT)
}

/// Each event of trailers in and out of its place.
const TURNED_AWAY: App = App::Scripted(&[
    Step::IsRefused(Said::Trailers(&[]), 4),
    Step::Says(START),
    Step::IsRefused(Said::Trailers(&[]), 4),
    Step::Says(Said::Last("x")),
    Step::IsRefused(Said::Part("y"), 4),
    Step::IsRefused(Said::LastTrailers(&[("content-length", "1")]), 6),
    Step::IsRefused(
        Said::Trailers(&[("x-sum", "7"), ("Connection", "close")]),
        6,
    ),
    Step::IsRefused(Said::Trailers(&[("Transfer-Encoding", "chunked")]), 6),
    Step::Says(Said::LastTrailers(&[])),
    Step::IsIgnored(Said::Trailers(&[])),
]);

/// The start does not announce the trailers.
const UNANNOUNCED: App = App::Scripted(&[
    Step::Says(Said::Start(200, &[])),
    Step::IsRefused(SUM, 4),
    Step::Says(Said::Last("x")),
    Step::IsIgnored(LAST_SUM),
]);

/// Once the task has received that the input has ended.
const GONE: App = App::Scripted(&[
    Step::Hears(Heard::Last("")),
    Step::Says(START),
    Step::Says(Said::Last("x")),
    Step::Hears(Heard::Disconnect),
    Step::IsRefused(LAST_SUM, 2),
]);

const VERDICTS: &[Row] = &[
    (
        Under::Usual,
        TURNED_AWAY,
        &[GET_TAKING_TRAILERS],
        &[PLAIN_HEAD, X, LAST_CHUNK],
        (Outcome::Finished, 1, 0),
    ),
    (
        Under::Usual,
        TURNED_AWAY,
        &[GET],
        &[PLAIN_HEAD, X, LAST_CHUNK],
        (Outcome::Finished, 1, 0),
    ),
    (
        Under::Usual,
        UNANNOUNCED,
        &[GET_TAKING_TRAILERS],
        &[PLAIN_HEAD, X, LAST_CHUNK],
        (Outcome::Finished, 1, 0),
    ),
    (
        Under::Usual,
        GONE,
        &[GET_TAKING_TRAILERS],
        &[PLAIN_HEAD, X, NO_SECTION],
        (Outcome::Finished, 1, 0),
    ),
];

#[test]
fn trailers_out_of_their_place_are_turned_away(rt: HostRuntime) -> Result<(), Fail> {
    check_cut(&rt, VERDICTS)
}

/// Announced trailers that do not come: nothing is added, and the next request is not served.
const MISSING: &[Row] = &[
    (
        Under::Usual,
        App::Sends(&[START, Said::Last("x")]),
        &[GET_TAKING_TRAILERS, GET],
        &[PLAIN_HEAD, X, NO_SECTION],
        (Outcome::Finished, 1, 0),
    ),
    (
        Under::Usual,
        App::Sends(&[START, Said::Last("x"), SUM]),
        &[GET_TAKING_TRAILERS, GET],
        &[PLAIN_HEAD, X, b"0\r\nx-sum: 7\r\n"],
        (Outcome::Finished, 1, 0),
    ),
    (
        Under::Usual,
        App::Scripted(&[Step::Says(START), Step::Says(Said::Last("x")), Step::Faults]),
        &[GET_TAKING_TRAILERS, GET],
        &[PLAIN_HEAD, X, NO_SECTION],
        (Outcome::Finished, 1, 1),
    ),
    // So it is if the client would get none.
    (
        Under::Usual,
        App::Sends(&[START, Said::Last("x")]),
        &[GET, GET],
        &[PLAIN_HEAD, X, LAST_CHUNK],
        (Outcome::Finished, 1, 0),
    ),
    // The content has not begun.
    (
        Under::Usual,
        App::Sends(&[START]),
        &[GET_TAKING_TRAILERS, GET],
        &[SERVER_ERROR],
        (Outcome::Refused(500), 1, 0),
    ),
];

#[test]
fn announced_trailers_that_never_come_end_the_connection(rt: HostRuntime) -> Result<(), Fail> {
    check_cut(&rt, MISSING)
}

/// A field whose line has 32 bytes.
const FIELD: (&str, &str) = ("x-a", "0123456789abcdefghijklmno");

/// Eight of its lines.
const EIGHT: &[u8] =
    b"x-a: 0123456789abcdefghijklmno\r\nx-a: 0123456789abcdefghijklmno\r\nx-a: 0123456789abcdefghijklmno\r\nx-a: 0123456789abcdefghijklmno\r\nx-a: 0123456789abcdefghijklmno\r\nx-a: 0123456789abcdefghijklmno\r\nx-a: 0123456789abcdefghijklmno\r\nx-a: 0123456789abcdefghijklmno\r\n";

/// The fields of a trailer section, and the content before it.
const SECTIONS: &[Row] = &[
    (
        Under::Usual,
        App::Sends(&[
            START,
            Said::Last("x"),
            Said::Trailers(&[]),
            Said::LastTrailers(&[]),
        ]),
        &[GET_TAKING_TRAILERS],
        &[PLAIN_HEAD, X, LAST_CHUNK],
        (Outcome::Finished, 1, 0),
    ),
    (
        Under::Usual,
        App::Sends(&[START, Said::Last("x"), Said::LastTrailers(&[FIELD; 64])]),
        &[GET_TAKING_TRAILERS],
        &[
            PLAIN_HEAD, X, NO_SECTION, EIGHT, EIGHT, EIGHT, EIGHT, EIGHT, EIGHT, EIGHT, EIGHT, END,
        ],
        (Outcome::Finished, 1, 0),
    ),
    // The names are sent in lower case, in their order, with their doubles.
    (
        Under::Usual,
        App::Sends(&[
            START,
            Said::Part("x"),
            Said::Last(""),
            Said::LastTrailers(&[("X-B", "Q"), ("X-A", ""), ("x-b", "Q")]),
        ]),
        &[GET_TAKING_TRAILERS],
        &[PLAIN_HEAD, X, b"0\r\nx-b: Q\r\nx-a: \r\nx-b: Q\r\n\r\n"],
        (Outcome::Finished, 1, 0),
    ),
    // The field that names them is the application's.
    (
        Under::Usual,
        App::Sends(&[
            Said::Announce(200, &[("Trailer", "x-sum")]),
            Said::Last("x"),
            LAST_SUM,
        ]),
        &[GET_TAKING_TRAILERS, GET],
        &[
            b"HTTP/1.1 200 OK\r\ntrailer: x-sum\r\ntransfer-encoding: chunked\r\n\r\n",
            X,
            b"0\r\nx-sum: 7\r\n\r\n",
            b"HTTP/1.1 200 OK\r\ntrailer: x-sum\r\ntransfer-encoding: chunked\r\n\r\n",
            X,
            LAST_CHUNK,
        ],
        (Outcome::Finished, 2, 0),
    ),
];

#[test]
fn a_trailer_section_has_the_fields_of_its_events(rt: HostRuntime) -> Result<(), Fail> {
    check_cut(&rt, SECTIONS)
}

/// Responses that have no chunks, and so no trailer section.
const NOT_CHUNKED: &[Row] = &[
    (
        Under::Usual,
        TRAILS,
        &[
            b"HEAD / HTTP/1.1\r\nHost: a\r\nTE: trailers\r\n\r\n",
            GET_TAKING_TRAILERS,
        ],
        &[PLAIN_HEAD, PLAIN_HEAD, X, SECTION],
        (Outcome::Finished, 2, 0),
    ),
    (
        Under::Usual,
        TRAILS,
        &[b"GET / HTTP/1.0\r\nTE: trailers\r\n\r\n", GET],
        &[b"HTTP/1.1 200 OK\r\nconnection: close\r\n\r\nx"],
        (Outcome::Finished, 1, 0),
    ),
    (
        Under::Usual,
        App::Sends(&[
            Said::Announce(200, &[("content-length", "1")]),
            Said::Last("x"),
            LAST_SUM,
        ]),
        &[GET_TAKING_TRAILERS, GET_TAKING_TRAILERS],
        &[
            b"HTTP/1.1 200 OK\r\ncontent-length: 1\r\n\r\nx",
            b"HTTP/1.1 200 OK\r\ncontent-length: 1\r\n\r\nx",
        ],
        (Outcome::Finished, 2, 0),
    ),
    (
        Under::Usual,
        App::Sends(&[Said::Announce(204, &[]), Said::Last(""), LAST_SUM]),
        &[GET_TAKING_TRAILERS, GET_TAKING_TRAILERS],
        &[
            b"HTTP/1.1 204 No Content\r\n\r\n",
            b"HTTP/1.1 204 No Content\r\n\r\n",
        ],
        (Outcome::Finished, 2, 0),
    ),
];

#[test]
fn only_chunks_have_trailers(rt: HostRuntime) -> Result<(), Fail> {
    check_cut(&rt, NOT_CHUNKED)
}
