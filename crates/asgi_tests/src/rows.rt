//! What is answered to each form of a head, given whole.
use crate::edges::head_of;
use asgi_conn::{Host, Outcome};
use asgi_fakes::texts::{
    BAD_REQUEST, GET, HELLO, HELLO_AND_CLOSE, HELLO_HEAD, NOT_IMPLEMENTED, OLD_HELLO,
    OLD_HELLO_HEAD, TOO_LARGE, TOO_LARGE_CONTENT, UPGRADE_REQUIRED,
};
use asgi_fakes::{App, Pieces, is_served};
use asgi_types::Limits;
use std::io;
use std::process::Abort;
use std::test::Fail;

/// Inputs, and for each what is written, the outcome and the exchanges.
type Case = (&'static [&'static [u8]], &'static [u8], Outcome, u64);

/// Whether the input, given whole, is served like this.
fn is_case<H: Host>(rt: &H, limits: &Limits, input: &[u8], case: &Case) -> io::Result<bool> {
    let (_, wanted, outcome, exchanges) = *case;
    let whole = Pieces::new(input, 4_096, 4_096);
    let end = (outcome, exchanges, 0);
    is_served(rt, limits, App::Hello, whole, wanted, end)
}

/// Serves each input of each case.
fn check<H: Abort + Host>(rt: &H, limits: &Limits, cases: &[Case]) -> Result<(), Fail> {
    for (place, case) in cases.iter().enumerate() {
        for (row, input) in case.0.iter().enumerate() {
            assert!(rt;
                is_case(rt, limits, input, case)?,
                "case {place}, input {row}"
            );
        }
    }
    Ok(())
}

const REQUESTS: &[Case] = &[(
    &[
        GET,
        b"get / HTTP/1.1\r\nHost: a\r\n\r\n",
        b"POST /x HTTP/1.1\r\nHost:\r\n\r\n",
        b"\r\n\n\r\nGET / HTTP/1.1\r\nHost: a\r\n\r\n",
        b"GET / HTTP/1.1\nHost: a\n\n",
        b"GET / HTTP/1.1\r\nHOST: a\r\nX-Empty:\r\nX-Tab: a\tb\r\n\r\n",
        b"GET / HTTP/1.1\r\nHost: a\r\nConnection: keep-alive, x-close\r\nX-Close: close\r\n\r\n",
        b"GET /c HTTP/1.1\r\nHost: a\r\nUpgrade: h2c\r\nConnection: Upgrade\r\nSec-WebSocket-Version: 8\r\n\r\n",
    ],
    HELLO,
    Outcome::Finished,
    1,
)];

#[test]
fn a_request_is_answered(rt: HostRuntime) -> Result<(), Fail> {
    check(&rt, &Limits::usual(), REQUESTS)
}

const FAULTY_HANDSHAKES: &[Case] = &[
    (
        &[
            b"GET /c HTTP/1.1\r\nHost: a\r\nUpgrade: websocket\r\nConnection: Upgrade\r\nSec-WebSocket-Key: AAAA\r\nSec-WebSocket-Version: 8\r\n\r\n",
        ],
        UPGRADE_REQUIRED,
        Outcome::Refused(426),
        0,
    ),
    (
        &[
            b"POST /c HTTP/1.1\r\nHost: a\r\nUpgrade: websocket\r\nConnection: Upgrade\r\nSec-WebSocket-Key: dGhlIHNhbXBsZSBub25jZQ==\r\nSec-WebSocket-Version: 13\r\n\r\n",
            b"GET /c HTTP/1.1\r\nHost: a\r\nContent-Length: 1\r\nUpgrade: websocket\r\nConnection: Upgrade\r\nSec-WebSocket-Key: dGhlIHNhbXBsZSBub25jZQ==\r\nSec-WebSocket-Version: 13\r\n\r\n",
            b"GET /c HTTP/1.1\r\nHost: a\r\nUpgrade: websocket\r\nConnection: Upgrade\r\nSec-WebSocket-Key: AAAA\r\nSec-WebSocket-Version: 13\r\n\r\n",
        ],
        BAD_REQUEST,
        Outcome::Refused(400),
        0,
    ),
];

#[test]
fn a_faulty_handshake_is_refused(rt: HostRuntime) -> Result<(), Fail> {
    check(&rt, &Limits::usual(), FAULTY_HANDSHAKES)
}

const CLOSING: &[Case] = &[(
    &[
        b"GET / HTTP/1.1\r\nHost: a\r\nConnection: close\r\n\r\n",
        b"GET / HTTP/1.1\r\nHost: a\r\nConnection: CLOSE\r\n\r\n",
        b"GET / HTTP/1.1\r\nHost: a\r\nConnection: keep-alive , Close\t,x\r\n\r\n",
        b"GET / HTTP/1.1\r\nConnection: x\r\nHost: a\r\nConnection: close\r\n\r\n",
        b"GET / HTTP/1.1\r\nHost: a\r\nConnection: ,,close\r\n\r\n",
    ],
    HELLO_AND_CLOSE,
    Outcome::Finished,
    1,
)];

#[test]
fn a_request_to_close_is_said_back(rt: HostRuntime) -> Result<(), Fail> {
    check(&rt, &Limits::usual(), CLOSING)
}

const TARGETS: &[Case] = &[(
    &[
        b"GET /a/b?c=/d#e HTTP/1.1\r\nHost: a\r\n\r\n",
        b"GET // HTTP/1.1\r\nHost: a\r\n\r\n",
        b"GET http://a/x?y HTTP/1.1\r\nHost: a\r\n\r\n",
        b"GET HTTPS://a:1 HTTP/1.1\r\nHost: a\r\n\r\n",
        b"GET hTTp://a?x HTTP/1.1\r\nHost: a\r\n\r\n",
        b"OPTIONS * HTTP/1.1\r\nHost: a\r\n\r\n",
        b"options * HTTP/1.1\r\nHost: a\r\n\r\n",
    ],
    HELLO,
    Outcome::Finished,
    1,
)];

#[test]
fn each_target_form_is_taken(rt: HostRuntime) -> Result<(), Fail> {
    check(&rt, &Limits::usual(), TARGETS)
}

const OTHER_TARGETS: &[Case] = &[(
    &[
        b"OPTIONS ** HTTP/1.1\r\nHost: a\r\n\r\n",
        b"GET a:1 HTTP/1.1\r\nHost: a\r\n\r\n",
        b"GET ?x HTTP/1.1\r\nHost: a\r\n\r\n",
        b"GET https://?x HTTP/1.1\r\nHost: a\r\n\r\n",
        b"GET ftp://a/x HTTP/1.1\r\nHost: a\r\n\r\n",
        b"GET a HTTP/1.0\r\n\r\n",
    ],
    BAD_REQUEST,
    Outcome::Refused(400),
    0,
)];

#[test]
fn any_other_target_is_bad(rt: HostRuntime) -> Result<(), Fail> {
    check(&rt, &Limits::usual(), OTHER_TARGETS)
}

const NO_HEADS: &[Case] = &[(
    &[
        b"GET / HTTP/1.1\r\nHost: a\r\nX: \0\r\n\r\n",
        b"GET / HTTP/1.1\r\nHost: a\r\nX: a\r\n b\r\n\r\n",
        b"GET / HTTP/1.1\r\nHost: a\r\nX: a\rb\r\n\r\n",
        b"GET / HTTP/1.1\r\nHost: a\r\n: a\r\n\r\n",
        b"GET  / HTTP/1.1\r\nHost: a\r\n\r\n",
        b"GET /\r\n\r\n",
        b"x\n\n",
    ],
    BAD_REQUEST,
    Outcome::Refused(400),
    0,
)];

#[test]
fn what_is_no_head_is_bad(rt: HostRuntime) -> Result<(), Fail> {
    check(&rt, &Limits::usual(), NO_HEADS)
}

const HOSTS: &[Case] = &[(
    &[
        b"GET / HTTP/1.1\r\n\r\n",
        b"GET / HTTP/1.1\r\nHost: a\r\nHost: a\r\n\r\n",
        b"GET / HTTP/1.1\r\nHost: a\r\nhost: b\r\n\r\n",
    ],
    BAD_REQUEST,
    Outcome::Refused(400),
    0,
)];

#[test]
fn a_request_names_one_host(rt: HostRuntime) -> Result<(), Fail> {
    check(&rt, &Limits::usual(), HOSTS)
}

const OLD_AND_HEAD: &[Case] = &[
    (
        &[
            b"GET / HTTP/1.0\r\n\r\n",
            b"GET / HTTP/1.0\r\nHost: a\r\nHost: a\r\n\r\n",
            b"GET / HTTP/1.0\r\nConnection: keep-alive\r\nContent-Length: 0\r\n\r\n",
        ],
        OLD_HELLO,
        Outcome::Finished,
        1,
    ),
    (
        &[
            b"HEAD / HTTP/1.1\r\nHost: a\r\n\r\n",
            b"head / HTTP/1.1\r\nHost: a\r\nContent-Length: 0\r\n\r\n",
        ],
        HELLO_HEAD,
        Outcome::Finished,
        1,
    ),
    (
        &[b"HEAD / HTTP/1.0\r\n\r\n"],
        OLD_HELLO_HEAD,
        Outcome::Finished,
        1,
    ),
    (
        &[
            b"GET / HTTP/1.1\r\nHost: a\r\nContent-Length: 0\r\n\r\n",
            b"POST / HTTP/1.1\r\nHost: a\r\nExpect: 100-continue\r\nContent-Length: 000\r\n\r\n",
        ],
        HELLO,
        Outcome::Finished,
        1,
    ),
];

#[test]
fn an_old_version_and_head_are_answered(rt: HostRuntime) -> Result<(), Fail> {
    check(&rt, &Limits::usual(), OLD_AND_HEAD)
}

const NOT_HEARD: &[Case] = &[
    (
        &[
            b"POST / HTTP/1.1\r\nHost: a\r\nContent-Length: 3\r\n\r\nabc",
            b"POST / HTTP/1.1\r\nHost: a\r\nTransfer-Encoding: chunked\r\n\r\n0\r\n\r\n",
            b"POST / HTTP/1.1\r\nHost: a\r\nTransfer-Encoding: Chunked\r\n\r\n2\r\nab\r\n0\r\nX: y\r\n\r\n",
        ],
        HELLO,
        Outcome::Finished,
        1,
    ),
    (
        &[b"HEAD / HTTP/1.1\r\nHost: a\r\nContent-Length: 1\r\n\r\na"],
        HELLO_HEAD,
        Outcome::Finished,
        1,
    ),
    // The response closes the connection, so the rest of the body is not waited for.
    (
        &[
            b"POST / HTTP/1.0\r\nContent-Length: 3\r\n\r\nabc",
            b"POST / HTTP/1.0\r\nContent-Length: 3\r\n\r\n",
        ],
        OLD_HELLO,
        Outcome::Finished,
        1,
    ),
    (
        &[b"POST / HTTP/1.1\r\nHost: a\r\nContent-Length: 3\r\n\r\nab"],
        HELLO,
        Outcome::InputBroke,
        1,
    ),
];

#[test]
fn a_body_that_is_not_heard_is_dropped(rt: HostRuntime) -> Result<(), Fail> {
    check(&rt, &Limits::usual(), NOT_HEARD)
}

const NOT_SERVED: &[Case] = &[(
    &[
        b"CONNECT a:1 HTTP/1.1\r\nHost: a\r\n\r\n",
        b"connect a:1 HTTP/1.0\r\n\r\n",
        b"POST / HTTP/1.1\r\nHost: a\r\nTransfer-Encoding: gzip\r\n\r\n",
    ],
    NOT_IMPLEMENTED,
    Outcome::Refused(501),
    0,
)];

#[test]
fn a_tunnel_and_another_coding_are_not_served(rt: HostRuntime) -> Result<(), Fail> {
    check(&rt, &Limits::usual(), NOT_SERVED)
}

const FAULTY_FRAMING: &[Case] = &[
    (
        &[
            b"POST / HTTP/1.1\r\nHost: a\r\nContent-Length: 3\r\nTransfer-Encoding: chunked\r\n\r\n0\r\n\r\nGET / HTTP/1.1\r\nHost: a\r\n\r\n",
        ],
        BAD_REQUEST,
        Outcome::Refused(400),
        0,
    ),
    (
        &[b"POST / HTTP/1.1\r\nHost: a\r\nContent-Length: 1048577\r\n\r\n"],
        TOO_LARGE_CONTENT,
        Outcome::Refused(413),
        0,
    ),
];

#[test]
fn a_faulty_framing_is_refused(rt: HostRuntime) -> Result<(), Fail> {
    check(&rt, &Limits::usual(), FAULTY_FRAMING)
}

const ENDS_EARLY: &[Case] = &[
    (
        &[b"", b"\r\n", b"\n\r\n\r", b"\r"],
        b"",
        Outcome::Finished,
        0,
    ),
    (
        &[
            b"GE",
            b"GET / HTTP/1.1\r\nHost: a\r\n",
            b"\r\nGET / HTTP/1.1\r\nHost: a\r\n\r",
            b"\0",
        ],
        b"",
        Outcome::InputBroke,
        0,
    ),
];

#[test]
fn an_input_that_ends_early_gets_no_answer(rt: HostRuntime) -> Result<(), Fail> {
    check(&rt, &Limits::usual(), ENDS_EARLY)
}

/// Whether a head of `length` bytes is served like this.
fn is_head_served<H: Host>(
    rt: &H,
    limits: &Limits,
    length: usize,
    case: &Case,
) -> Result<bool, Fail> {
    let head = head_of(rt.alloc(), length)?;
    Ok(is_case(rt, limits, &head, case)?)
}

const FITS: Case = (&[], HELLO, Outcome::Finished, 1);

const IS_OVER: Case = (&[], TOO_LARGE, Outcome::Refused(431), 0);

/// Heads of at most 64 bytes.
const SMALL: &[Case] = &[
    (
        &[&[b'\n'; 64], &[b'a'; 64]],
        TOO_LARGE,
        Outcome::Refused(431),
        0,
    ),
    (&[&[b'\n'; 63]], b"", Outcome::Finished, 0),
    (&[&[b'a'; 63]], b"", Outcome::InputBroke, 0),
];

/// Heads of at most one field.
const ONE_FIELD: &[Case] = &[
    (&[GET], HELLO, Outcome::Finished, 1),
    (
        &[
            b"GET / HTTP/1.1\r\nHost: a\r\nX: y\r\n\r\n",
            b"GET / HTTP/1.1\r\nHost: a\r\nX : y\r\n\r\n",
        ],
        BAD_REQUEST,
        Outcome::Refused(400),
        0,
    ),
];

#[test]
fn a_head_keeps_its_limits(rt: HostRuntime) -> Result<(), Fail> {
    let small = Limits::new(64, 64, 0, 1, 2, 1_000, 1_000_000)?;
    assert!(rt; is_head_served(&rt, &small, 64, &FITS)?);
    assert!(rt; is_head_served(&rt, &small, 65, &IS_OVER)?);
    check(&rt, &small, SMALL)?;
    let one_field = Limits::new(16_384, 1, 0, 1, 2, 1_000, 1_000_000)?;
    check(&rt, &one_field, ONE_FIELD)
}
