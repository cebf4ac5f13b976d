//! Targets that two readers may take differently. `Targets` answers, with the path, the raw path and the query of each
//! request that it hears.
use crate::rows::{BAD, EVIL, EVIL_ANSWER, Row, UNKNOWN, check};
use asgi_conn::Outcome;
use asgi_fakes::App;
use asgi_fakes::texts::PLAIN_HEAD;
use std::test::Fail;

const FORMS: &[Row] = &[
    // RFC 9112, 3.2.2: an absolute target is taken, whatever the host field says; ASGI's path is that of the target.
    (
        "an absolute target with another host",
        &[b"GET http://b/x HTTP/1.1\r\nHost: a\r\n\r\n", EVIL],
        (
            &[PLAIN_HEAD, b"a\r\n[/x][/x][]\r\n0\r\n\r\n", EVIL_ANSWER],
            Outcome::Finished,
            2,
        ),
    ),
    (
        "an absolute target with a port and no path",
        &[b"GET http://b:8080 HTTP/1.1\r\nHost: a\r\n\r\n", EVIL],
        (
            &[PLAIN_HEAD, b"8\r\n[/][/][]\r\n0\r\n\r\n", EVIL_ANSWER],
            Outcome::Finished,
            2,
        ),
    ),
    // RFC 9112, 3.2: one host field is asked for, with an absolute target too.
    (
        "an absolute target and no host",
        &[b"GET http://a/x HTTP/1.1\r\n\r\n", EVIL],
        BAD,
    ),
    // RFC 9110, 4.2.1: an http URI with an empty host is refused.
    (
        "an absolute target with an empty host",
        &[b"GET http:///x HTTP/1.1\r\nHost: a\r\n\r\n", EVIL],
        BAD,
    ),
    (
        "another scheme",
        &[b"GET file:///etc/passwd HTTP/1.1\r\nHost: a\r\n\r\n", EVIL],
        BAD,
    ),
    // RFC 9112, 3.2.3: the authority form is that of CONNECT alone, and there are no tunnels (RFC 9110, 9.3.6).
    (
        "an authority",
        &[b"GET a:80 HTTP/1.1\r\nHost: a\r\n\r\n", EVIL],
        BAD,
    ),
    (
        "a tunnel to this machine",
        &[
            b"CONNECT 127.0.0.1:22 HTTP/1.1\r\nHost: 127.0.0.1:22\r\n\r\n",
            EVIL,
        ],
        UNKNOWN,
    ),
    // RFC 9112, 3.2.4: the asterisk is that of OPTIONS alone.
    (
        "an asterisk",
        &[b"GET * HTTP/1.1\r\nHost: a\r\n\r\n", EVIL],
        BAD,
    ),
    (
        "an asterisk of OPTIONS",
        &[b"OPTIONS * HTTP/1.1\r\nHost: a\r\n\r\n", EVIL],
        (
            &[PLAIN_HEAD, b"8\r\n[*][*][]\r\n0\r\n\r\n", EVIL_ANSWER],
            Outcome::Finished,
            2,
        ),
    ),
    (
        "an asterisk and a path",
        &[b"OPTIONS */x HTTP/1.1\r\nHost: a\r\n\r\n", EVIL],
        BAD,
    ),
    // RFC 9112, 3.2.1: an origin target begins with a slash.
    (
        "a path with no slash",
        &[b"GET x HTTP/1.1\r\nHost: a\r\n\r\n", EVIL],
        BAD,
    ),
    (
        "dots with no slash",
        &[b"GET ../x HTTP/1.1\r\nHost: a\r\n\r\n", EVIL],
        BAD,
    ),
];

#[test]
fn a_target_has_one_of_four_forms(rt: HostRuntime) -> Result<(), Fail> {
    check(&rt, App::Targets, FORMS)
}

const PATHS: &[Row] = &[
    // ASGI HTTP connection scope: the path is decoded, once, and the raw path and the query are not. RFC 9112, 3.2.1: the
    // query begins at the first question mark.
    (
        "a percent-encoded NUL",
        &[b"GET /%00 HTTP/1.1\r\nHost: a\r\n\r\n", EVIL],
        (
            &[
                PLAIN_HEAD,
                b"c\r\n[/\x00][/%00][]\r\n0\r\n\r\n",
                EVIL_ANSWER,
            ],
            Outcome::Finished,
            2,
        ),
    ),
    (
        "a percent-encoded line end",
        &[b"GET /%0d%0a HTTP/1.1\r\nHost: a\r\n\r\n", EVIL],
        (
            &[
                PLAIN_HEAD,
                b"10\r\n[/\r\n][/%0d%0a][]\r\n0\r\n\r\n",
                EVIL_ANSWER,
            ],
            Outcome::Finished,
            2,
        ),
    ),
    (
        "a percent-encoded slash",
        &[b"GET /a%2fb HTTP/1.1\r\nHost: a\r\n\r\n", EVIL],
        (
            &[
                PLAIN_HEAD,
                b"10\r\n[/a/b][/a%2fb][]\r\n0\r\n\r\n",
                EVIL_ANSWER,
            ],
            Outcome::Finished,
            2,
        ),
    ),
    (
        "a percent-encoded question mark",
        &[b"GET /a%3fb?c HTTP/1.1\r\nHost: a\r\n\r\n", EVIL],
        (
            &[
                PLAIN_HEAD,
                b"11\r\n[/a?b][/a%3fb][c]\r\n0\r\n\r\n",
                EVIL_ANSWER,
            ],
            Outcome::Finished,
            2,
        ),
    ),
    (
        "what is percent-encoded twice",
        &[b"GET /%2541 HTTP/1.1\r\nHost: a\r\n\r\n", EVIL],
        (
            &[
                PLAIN_HEAD,
                b"10\r\n[/%41][/%2541][]\r\n0\r\n\r\n",
                EVIL_ANSWER,
            ],
            Outcome::Finished,
            2,
        ),
    ),
    (
        "two question marks",
        &[b"GET /a?b?c%3f HTTP/1.1\r\nHost: a\r\n\r\n", EVIL],
        (
            &[
                PLAIN_HEAD,
                b"10\r\n[/a][/a][b?c%3f]\r\n0\r\n\r\n",
                EVIL_ANSWER,
            ],
            Outcome::Finished,
            2,
        ),
    ),
    // RFC 3986, 6.2.2.3, lets dots be removed by who normalizes; ASGI's path keeps them.
    (
        "dots",
        &[b"GET /a/../b HTTP/1.1\r\nHost: a\r\n\r\n", EVIL],
        (
            &[
                PLAIN_HEAD,
                b"14\r\n[/a/../b][/a/../b][]\r\n0\r\n\r\n",
                EVIL_ANSWER,
            ],
            Outcome::Finished,
            2,
        ),
    ),
    (
        "percent-encoded dots",
        &[b"GET /%2e%2e/x HTTP/1.1\r\nHost: a\r\n\r\n", EVIL],
        (
            &[
                PLAIN_HEAD,
                b"14\r\n[/../x][/%2e%2e/x][]\r\n0\r\n\r\n",
                EVIL_ANSWER,
            ],
            Outcome::Finished,
            2,
        ),
    ),
    (
        "two slashes",
        &[b"GET //a//b HTTP/1.1\r\nHost: a\r\n\r\n", EVIL],
        (
            &[
                PLAIN_HEAD,
                b"12\r\n[//a//b][//a//b][]\r\n0\r\n\r\n",
                EVIL_ANSWER,
            ],
            Outcome::Finished,
            2,
        ),
    ),
];

#[test]
fn a_path_is_decoded_once_and_kept(rt: HostRuntime) -> Result<(), Fail> {
    check(&rt, App::Targets, PATHS)
}
