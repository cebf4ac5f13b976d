//! Which requests are opening handshakes, and what their clients offer (RFC 6455, section 4.2.1).
use crate::calls::{of_given, of_given_beside};
use crate::feeding::{add_bytes, are};
use crate::records::{Field, record};
use asgi_request::{HeadFraming, HeadRecord, UpgradeAsk, check_upgrade, is_key};
use asgi_types::{HeaderError, HttpVersion, Names};
use std::alloc::{AllocError, Global};
use std::process::Abort;
use std::test::Fail;

const WS: Field = ("Upgrade", "websocket");

const UP: Field = ("Connection", "Upgrade");

const KEY: Field = ("Sec-WebSocket-Key", "dGhlIHNhbXBsZSBub25jZQ==");

const V13: Field = ("Sec-WebSocket-Version", "13");

const SHORT: Field = ("Sec-WebSocket-Key", "AAAA");

const NONE: HeadFraming = HeadFraming::Length(0);

/// What a row is about, its method, its framing and its fields, and what is asked.
type Row = (
    &'static str,
    &'static str,
    HeadFraming,
    &'static [Field],
    &'static str,
);

/// The words of what is asked.
fn words_of(ask: &UpgradeAsk, alloc: &Global) -> Result<String, AllocError> {
    let mut words = String::new(*alloc);
    add_words(ask, &mut words)?;
    Ok(words)
}

fn add_words(ask: &UpgradeAsk, words: &mut String) -> Result<(), AllocError> {
    match ask {
        UpgradeAsk::Plain => words.push_str("plain"),
        UpgradeAsk::Bad(status) => words.push_str(status_word(*status)),
        UpgradeAsk::Upgrade { key, subprotocols } => add_offer(key, subprotocols, words),
    }
}

/// A status that occurs in a row.
fn status_word(status: u16) -> &'static str {
    match status {
        400 => "400",
        413 => "413",
        426 => "426",
        _ => "another status",
    }
}

fn add_offer(key: &[u8], names: &Names, words: &mut String) -> Result<(), AllocError> {
    add_bytes(key, words)?;
    for i in 0..names.len() {
        add_name(names, i, words)?;
    }
    Ok(())
}

fn add_name(names: &Names, index: usize, words: &mut String) -> Result<(), AllocError> {
    words.push_str(" ")?;
    match names.at(index) {
        Some(name) => words.push_str(name.as_str()),
        None => words.push_str("?"),
    }
}

fn words_asked(head: &HeadRecord, how: &(Global, HeadFraming)) -> Result<String, AllocError> {
    let asked = check_upgrade(how.0, head, &how.1);
    of_given_beside(asked, &how.0, words_of)?
}

fn asked(alloc: Global, version: HttpVersion, row: &Row) -> Result<String, HeaderError> {
    let head = record(alloc, version, row.1, row.3);
    Ok(of_given_beside(head, &(alloc, row.2), words_asked)??)
}

/// The words of each row are those of what is asked.
fn ask(rt: &impl Abort, alloc: Global, version: HttpVersion, rows: &[Row]) -> Result<(), Fail> {
    for (index, row) in rows.iter().enumerate() {
        let words = asked(alloc, version, row)?;
        are(rt, words.as_str(), row.4, row.0, index);
    }
    Ok(())
}

/// Each rule, and which comes first.
const RULES: &[Row] = &[
    (
        "whole",
        "GET",
        NONE,
        &[WS, UP, KEY, V13],
        "dGhlIHNhbXBsZSBub25jZQ==",
    ),
    ("no upgrade", "GET", NONE, &[UP, KEY, V13], "plain"),
    ("no connection", "GET", NONE, &[WS, KEY, V13], "plain"),
    (
        "another protocol",
        "GET",
        NONE,
        &[("Upgrade", "h2c"), UP, KEY, V13],
        "plain",
    ),
    ("nothing", "GET", NONE, &[], "plain"),
    (
        "plain, whatever else",
        "POST",
        HeadFraming::Chunked,
        &[WS, SHORT],
        "plain",
    ),
    ("another method", "POST", NONE, &[WS, UP, KEY, V13], "400"),
    ("HEAD", "HEAD", NONE, &[WS, UP, KEY, V13], "400"),
    (
        "a body of 1",
        "GET",
        HeadFraming::Length(1),
        &[WS, UP, KEY, V13],
        "400",
    ),
    (
        "a chunked body",
        "GET",
        HeadFraming::Chunked,
        &[WS, UP, KEY, V13],
        "400",
    ),
    ("no version", "GET", NONE, &[WS, UP, KEY], "426"),
    ("no key", "GET", NONE, &[WS, UP, V13], "400"),
    ("a short key", "GET", NONE, &[WS, UP, SHORT, V13], "400"),
    ("two keys", "GET", NONE, &[WS, UP, KEY, KEY, V13], "400"),
    ("method before version", "POST", NONE, &[WS, UP, KEY], "400"),
    (
        "body before version",
        "GET",
        HeadFraming::Length(1),
        &[WS, UP, KEY],
        "400",
    ),
    ("version before key", "GET", NONE, &[WS, UP, SHORT], "426"),
    (
        "a refused framing",
        "GET",
        HeadFraming::Bad(413),
        &[WS, UP, KEY, V13],
        "413",
    ),
];

#[test]
fn an_upgrade_is_judged_by_the_first_rule_that_holds(rt: HostRuntime) -> Result<(), Fail> {
    ask(&rt, rt.alloc(), HttpVersion::V11, RULES)
}

const OF_10: &[Row] = &[("HTTP/1.0", "GET", NONE, &[WS, UP, KEY, V13], "plain")];

#[test]
fn an_upgrade_of_http_10_is_ignored(rt: HostRuntime) -> Result<(), Fail> {
    ask(&rt, rt.alloc(), HttpVersion::V10, OF_10)
}

const VERSIONS: &[Row] = &[
    (
        "8",
        "GET",
        NONE,
        &[WS, UP, KEY, ("Sec-WebSocket-Version", "8")],
        "426",
    ),
    (
        "13, 8",
        "GET",
        NONE,
        &[WS, UP, KEY, ("Sec-WebSocket-Version", "13, 8")],
        "426",
    ),
    (
        "8, 13",
        "GET",
        NONE,
        &[WS, UP, KEY, ("Sec-WebSocket-Version", "8, 13")],
        "426",
    ),
    (
        "013",
        "GET",
        NONE,
        &[WS, UP, KEY, ("Sec-WebSocket-Version", "013")],
        "426",
    ),
    (
        "",
        "GET",
        NONE,
        &[WS, UP, KEY, ("Sec-WebSocket-Version", "")],
        "426",
    ),
    (
        "1",
        "GET",
        NONE,
        &[WS, UP, KEY, ("Sec-WebSocket-Version", "1")],
        "426",
    ),
    (
        "+13",
        "GET",
        NONE,
        &[WS, UP, KEY, ("Sec-WebSocket-Version", "+13")],
        "426",
    ),
    ("two versions", "GET", NONE, &[WS, UP, KEY, V13, V13], "426"),
];

#[test]
fn only_version_13_is_served(rt: HostRuntime) -> Result<(), Fail> {
    ask(&rt, rt.alloc(), HttpVersion::V11, VERSIONS)
}

/// What upgrade and connection list.
const TOKENS: &[Row] = &[
    (
        "WebSocket",
        "GET",
        NONE,
        &[
            ("upgrade", "WebSocket"),
            ("connection", "keep-alive, upgrade"),
            KEY,
            V13,
        ],
        "dGhlIHNhbXBsZSBub25jZQ==",
    ),
    (
        "h2c, \twebsocket",
        "GET",
        NONE,
        &[
            ("upgrade", "h2c, \twebsocket"),
            ("connection", "UPGRADE"),
            KEY,
            V13,
        ],
        "dGhlIHNhbXBsZSBub25jZQ==",
    ),
    (
        ",, websocket ,",
        "GET",
        NONE,
        &[
            ("upgrade", ",, websocket ,"),
            ("connection", " ,upgrade"),
            KEY,
            V13,
        ],
        "dGhlIHNhbXBsZSBub25jZQ==",
    ),
    (
        "web socket",
        "GET",
        NONE,
        &[
            ("upgrade", "web socket"),
            ("connection", "upgrade"),
            KEY,
            V13,
        ],
        "plain",
    ),
    (
        "websocket/13",
        "GET",
        NONE,
        &[
            ("upgrade", "websocket/13"),
            ("connection", "upgrade"),
            KEY,
            V13,
        ],
        "plain",
    ),
    (
        "websocket",
        "GET",
        NONE,
        &[
            ("upgrade", "websocket"),
            ("connection", "upgraded"),
            KEY,
            V13,
        ],
        "plain",
    ),
    (
        "websocket",
        "GET",
        NONE,
        &[
            ("upgrade", "websocket"),
            ("connection", "keep-alive upgrade"),
            KEY,
            V13,
        ],
        "plain",
    ),
    (
        "websocket",
        "GET",
        NONE,
        &[("upgrade", "websocket"), ("connection", ""), KEY, V13],
        "plain",
    ),
];

#[test]
fn tokens_of_upgrade_and_connection_are_in_any_case(rt: HostRuntime) -> Result<(), Fail> {
    ask(&rt, rt.alloc(), HttpVersion::V11, TOKENS)
}

/// A text, and whether it is a key.
const KEYS: &[(&'static str, bool)] = &[
    ("dGhlIHNhbXBsZSBub25jZQ==", true),
    ("AAAAAAAAAAAAAAAAAAAAAA==", true),
    ("/////////////////////w==", true),
    ("x3JJHMbDL1EzLkh9GBhXDw==", true),
    ("dGhlIHNhbXBsZSBub25jZR==", false),
    ("dGhlIHNhbXBsZSBub25jZQ=", false),
    ("dGhlIHNhbXBsZSBub25jZQ", false),
    ("dGhlIHNhbXBsZSBub25jZQ===", false),
    ("dGhlIHNhbXBsZSBub25jZQA=", false),
    ("dGhlIHNhbXBsZSBub25jZQAA", false),
    ("dGhlIHNhbXBsZSBub25jZS0x", false),
    ("_____________________w==", false),
    ("dGhlIHNhbXBsZSBub25 ZQ==", false),
    ("=GhlIHNhbXBsZSBub25jZQ==", false),
    ("dGhlIHNhbXBsZSBub25j", false),
    ("", false),
];

fn is_judged(row: &(&'static str, bool)) -> bool {
    is_key(row.0.as_bytes()) == row.1
}

#[test]
fn a_key_is_the_base64_of_16_bytes(rt: HostRuntime) -> Result<(), Fail> {
    for row in KEYS {
        assert!(rt; is_judged(row), "{}", row.0);
    }
    Ok(())
}

/// What two fields offer around the others: the key and the names are asked.
const OFFERS: &[Row] = &[
    (
        "chat",
        "GET",
        NONE,
        &[
            ("sec-websocket-protocol", "chat"),
            WS,
            UP,
            KEY,
            V13,
            ("Sec-WebSocket-Protocol", "superchat"),
        ],
        "dGhlIHNhbXBsZSBub25jZQ== chat superchat",
    ),
    (
        "chat, superchat",
        "GET",
        NONE,
        &[
            ("sec-websocket-protocol", "chat, superchat"),
            WS,
            UP,
            KEY,
            V13,
            ("Sec-WebSocket-Protocol", "v1.Bar"),
        ],
        "dGhlIHNhbXBsZSBub25jZQ== chat superchat v1.Bar",
    ),
    (
        " \tB ,,\t, a,",
        "GET",
        NONE,
        &[
            ("sec-websocket-protocol", " \tB ,,\t, a,"),
            WS,
            UP,
            KEY,
            V13,
            ("Sec-WebSocket-Protocol", ""),
        ],
        "dGhlIHNhbXBsZSBub25jZQ== B a",
    ),
    (
        "chat chat, a/b, \"c\", d",
        "GET",
        NONE,
        &[
            ("sec-websocket-protocol", "chat chat, a/b, \"c\", d"),
            WS,
            UP,
            KEY,
            V13,
            ("Sec-WebSocket-Protocol", ""),
        ],
        "dGhlIHNhbXBsZSBub25jZQ== d",
    ),
    (
        "a, a",
        "GET",
        NONE,
        &[
            ("sec-websocket-protocol", "a, a"),
            WS,
            UP,
            KEY,
            V13,
            ("Sec-WebSocket-Protocol", "a"),
        ],
        "dGhlIHNhbXBsZSBub25jZQ== a a a",
    ),
    (
        "mqtt;v=5",
        "GET",
        NONE,
        &[
            ("sec-websocket-protocol", "mqtt;v=5"),
            WS,
            UP,
            KEY,
            V13,
            ("Sec-WebSocket-Protocol", "caf\u{e9}"),
        ],
        "dGhlIHNhbXBsZSBub25jZQ==",
    ),
    (
        "!#$%&'*+-.^_`|~",
        "GET",
        NONE,
        &[
            ("sec-websocket-protocol", "!#$%&'*+-.^_`|~"),
            WS,
            UP,
            KEY,
            V13,
            ("Sec-WebSocket-Protocol", "0"),
        ],
        "dGhlIHNhbXBsZSBub25jZQ== !#$%&'*+-.^_`|~ 0",
    ),
    (
        "",
        "GET",
        NONE,
        &[
            ("sec-websocket-protocol", ""),
            WS,
            UP,
            KEY,
            V13,
            ("Sec-WebSocket-Protocol", ","),
        ],
        "dGhlIHNhbXBsZSBub25jZQ==",
    ),
];

#[test]
fn subprotocols_are_the_tokens_in_their_order(rt: HostRuntime) -> Result<(), Fail> {
    ask(&rt, rt.alloc(), HttpVersion::V11, OFFERS)
}

/// A handshake that offers two subprotocols.
const OFFERING: &[Field] = &[WS, UP, KEY, V13, ("sec-websocket-protocol", "a, b")];

/// Whether two subprotocols are offered.
fn offers_two(ask: &UpgradeAsk) -> bool {
    match ask {
        UpgradeAsk::Upgrade { subprotocols, .. } => subprotocols.len() == 2,
        _ => false,
    }
}

fn gives_two(alloc: Global, head: &HeadRecord) -> Result<bool, AllocError> {
    of_given(check_upgrade(alloc, head, &NONE), offers_two)
}

/// The same, asked again if memory was refused.
fn gives_two_again(head: &HeadRecord, alloc: &Global) -> Result<bool, AllocError> {
    match gives_two(*alloc, head) {
        Ok(given) => Ok(given),
        Err(_) => gives_two(*alloc, head),
    }
}

fn offers(alloc: Global) -> Result<bool, HeaderError> {
    let head = record(alloc, HttpVersion::V11, "GET", OFFERING);
    Ok(of_given_beside(head, &alloc, gives_two_again)??)
}

/// If memory was refused for the record, it is made again.
#[test]
fn memory_for_an_upgrade(rt: HostRuntime) -> Result<(), Fail> {
    let given = match offers(rt.alloc()) {
        Ok(given) => given,
        Err(_) => offers(rt.alloc())?,
    };
    assert!(rt; given);
    Ok(())
}
