//! What a session is told by its server, and what its client is (RFC 6455, sections 5.5.1, 5.5.2 and 7.4.1).
use asgi_leaving::{Farewell, LeavingLine, Notice};
use asgi_ws::{Got, Line, Messages, Msg, Put, Script, ScriptRead, SentMessage};
use std::alloc::{AllocError, Global};
use std::collections::VecDeque;
use std::test::Fail;

/// What a read of a message returned.
#[derive(Clone, Copy, PartialEq, Eq)]
enum Read {
    /// A close with this code and no reason.
    Closed(u16),
    Ping,
    Pong,
    Idle,
    Ended,
    Failed,
    /// Anything else.
    Other,
}

fn read_of(got: &Got) -> Read {
    match got {
        Got::Message(Msg::Close(Some((code, reason)))) => {
            if reason.bytes().is_empty() {
                Read::Closed(*code)
            } else {
                Read::Other
            }
        }
        Got::Message(Msg::Ping) => Read::Ping,
        Got::Message(Msg::Pong) => Read::Pong,
        Got::Message(_) => Read::Other,
        Got::Idle => Read::Idle,
        Got::Ended => Read::Ended,
        Got::Failed => Read::Failed,
        Got::NoMemory => Read::Other,
    }
}

/// What the script has: a message, nothing yet, or a fault.
#[derive(Clone, Copy)]
enum Has {
    Ping,
    Pong,
    Nothing,
    Fault,
}

/// What a row expects of a line.
struct Row {
    name: &'static str,
    /// From which read on what is due, in order.
    due: &'static [(usize, Notice)],
    /// What the script has.
    has: &'static [Has],
    /// What each read returns.
    reads: &'static [Read],
    /// How many pings the client is sent.
    pings: u64,
    /// The codes of the closes that it is sent at last.
    closes: &'static [u16],
}

const AWAY: Notice = Notice::Close(Farewell::GoingAway);

const NO_ANSWER: Notice = Notice::Close(Farewell::NoAnswer);

const ROWS: &[Row] = &[
    Row {
        name: "nothing is due",
        due: &[],
        has: &[Has::Nothing, Has::Nothing],
        reads: &[Read::Idle, Read::Idle, Read::Ended],
        pings: 0,
        closes: &[],
    },
    // ---- the server goes away
    Row {
        name: "a session is told once",
        due: &[(0, AWAY)],
        has: &[Has::Nothing, Has::Nothing],
        reads: &[Read::Closed(1001), Read::Idle, Read::Ended],
        pings: 0,
        closes: &[1001],
    },
    Row {
        name: "it is told once the server goes away",
        due: &[(1, AWAY)],
        has: &[Has::Nothing, Has::Nothing],
        reads: &[Read::Idle, Read::Closed(1001), Read::Ended],
        pings: 0,
        closes: &[1001],
    },
    Row {
        name: "what the client sent before is heard first",
        due: &[(0, AWAY)],
        has: &[Has::Ping, Has::Ping, Has::Nothing],
        reads: &[Read::Ping, Read::Ping, Read::Closed(1001), Read::Ended],
        pings: 0,
        closes: &[1001],
    },
    Row {
        name: "what comes after it is given too",
        due: &[(0, AWAY)],
        has: &[Has::Nothing, Has::Ping],
        reads: &[Read::Closed(1001), Read::Ping, Read::Ended],
        pings: 0,
        closes: &[1001],
    },
    Row {
        name: "the end of the input is told as it is",
        due: &[(0, AWAY)],
        has: &[],
        reads: &[Read::Ended],
        pings: 0,
        closes: &[],
    },
    Row {
        name: "a fault is told as it is",
        due: &[(0, AWAY)],
        has: &[Has::Fault, Has::Nothing],
        reads: &[Read::Failed, Read::Closed(1001)],
        pings: 0,
        closes: &[1001],
    },
    // ---- a client is asked
    Row {
        name: "a client is asked once",
        due: &[(0, Notice::Ping)],
        has: &[Has::Nothing, Has::Nothing, Has::Nothing],
        reads: &[Read::Idle, Read::Idle, Read::Idle, Read::Ended],
        pings: 1,
        closes: &[],
    },
    Row {
        name: "what has arrived is heard first",
        due: &[(0, Notice::Ping), (1, Notice::Nothing)],
        has: &[Has::Ping, Has::Nothing],
        reads: &[Read::Ping, Read::Idle, Read::Ended],
        pings: 0,
        closes: &[],
    },
    Row {
        name: "a client that was heard is asked again",
        due: &[(0, Notice::Ping)],
        has: &[Has::Nothing, Has::Pong, Has::Nothing],
        reads: &[Read::Idle, Read::Pong, Read::Idle, Read::Ended],
        pings: 2,
        closes: &[],
    },
    Row {
        name: "a client at its end is not asked",
        due: &[(0, Notice::Ping)],
        has: &[Has::Fault],
        reads: &[Read::Failed, Read::Ended],
        pings: 0,
        closes: &[],
    },
    // ---- it does not answer
    Row {
        name: "a session whose client does not answer is told once",
        due: &[(0, Notice::Ping), (1, NO_ANSWER)],
        has: &[Has::Nothing, Has::Nothing, Has::Nothing],
        reads: &[Read::Idle, Read::Closed(1011), Read::Idle, Read::Ended],
        pings: 1,
        closes: &[1011],
    },
    Row {
        name: "a pong at the last moment is an answer",
        due: &[(0, Notice::Ping), (1, NO_ANSWER)],
        has: &[Has::Nothing, Has::Pong, Has::Nothing],
        reads: &[Read::Idle, Read::Pong, Read::Idle, Read::Ended],
        pings: 1,
        closes: &[],
    },
    Row {
        name: "a client that was not asked can't answer",
        due: &[(0, NO_ANSWER)],
        has: &[Has::Nothing, Has::Nothing],
        reads: &[Read::Idle, Read::Idle, Read::Ended],
        pings: 0,
        closes: &[],
    },
    // ---- both
    Row {
        name: "the server goes away while a client is asked",
        due: &[(0, Notice::Ping), (1, AWAY)],
        has: &[Has::Nothing, Has::Nothing],
        reads: &[Read::Idle, Read::Closed(1001), Read::Ended],
        pings: 1,
        closes: &[1001],
    },
    Row {
        name: "what was told first stays",
        due: &[(0, Notice::Ping), (1, NO_ANSWER), (2, AWAY)],
        has: &[Has::Nothing, Has::Nothing, Has::Nothing],
        reads: &[Read::Idle, Read::Closed(1011), Read::Idle],
        pings: 1,
        closes: &[1011],
    },
    Row {
        name: "a session that was told is asked no more",
        due: &[(0, AWAY), (1, Notice::Ping), (3, NO_ANSWER)],
        has: &[Has::Nothing, Has::Pong, Has::Nothing, Has::Nothing],
        reads: &[Read::Closed(1001), Read::Pong, Read::Idle, Read::Idle],
        pings: 0,
        closes: &[1001],
    },
];

fn script(alloc: Global, row: &Row) -> Result<Script, AllocError> {
    let mut turns = VecDeque::new(alloc);
    for has in row.has {
        turns.push_back(match has {
            Has::Ping => ScriptRead::Message(Msg::Ping),
            Has::Pong => ScriptRead::Message(Msg::Pong),
            Has::Nothing => ScriptRead::Idle,
            Has::Fault => ScriptRead::Fault,
        })?;
    }
    Ok(Script::new(alloc, VecDeque::new(alloc), turns))
}

fn next<L: Line>(line: &mut L) -> Read {
    read_of(&line.read_message())
}

/// How many reads, from the first on, return what is expected.
fn reads_held(line: &mut LeavingLine<Script>, row: &Row) -> usize {
    for (index, read) in row.reads.iter().enumerate() {
        for (from, notice) in row.due {
            if index == *from {
                line.owe(*notice);
            }
        }
        if next(line) != *read {
            return index;
        }
    }
    row.reads.len()
}

/// Whether what was sent is a close with each of these codes.
fn are_closes(handed: &[SentMessage], codes: &[u16]) -> bool {
    if handed.len() != codes.len() {
        return false;
    }
    for (message, code) in handed.iter().zip(codes) {
        let SentMessage::Close(sent, _) = message else {
            return false;
        };
        if sent != code {
            return false;
        }
    }
    true
}

/// Whether the line does what the row says, after an `upgrade` before which it has no messages.
fn holds(mut line: LeavingLine<Script>, leftover: Vec<u8>, row: &Row) -> bool {
    let shut = next(&mut line) == Read::Failed;
    line.upgrade(leftover);
    let reads = reads_held(&mut line, row);
    let pings = line.line().pings();
    line.close_session();
    shut && reads == row.reads.len()
        && pings == row.pings
        && are_closes(line.line().handed(), row.closes)
}

#[test]
fn a_session_is_told_what_is_due(rt: HostRuntime) -> Result<(), Fail> {
    let alloc = rt.alloc();
    for row in ROWS {
        let line = LeavingLine::new(script(alloc, row)?);
        assert!(rt; holds(line, Vec::new(alloc), row), "{}", row.name);
    }
    Ok(())
}

/// Before `upgrade` a line has no messages, whatever is due, so nobody is told or asked.
fn is_untold(mut line: LeavingLine<Script>, due: Notice) -> bool {
    line.owe(due);
    let read = next(&mut line);
    line.close_session();
    read == Read::Failed && line.line().handed().is_empty() && line.line().pings() == 0
}

#[test]
fn a_line_of_text_tells_nobody(rt: HostRuntime) -> Result<(), Fail> {
    for due in [Notice::Nothing, Notice::Ping, AWAY, NO_ANSWER] {
        let line = LeavingLine::new(script(rt.alloc(), &ROWS[0])?);
        assert!(rt; is_untold(line, due));
    }
    Ok(())
}

/// What is sent once the session was told still goes out, and the close of the server comes behind it.
fn sends_on(mut line: LeavingLine<Script>, leftover: Vec<u8>) -> bool {
    line.upgrade(leftover);
    line.owe(AWAY);
    let told = next(&mut line) == Read::Closed(1001);
    let Some(reason) = asgi_types::Reason::new("bye") else {
        return false;
    };
    let sent = line.send_close(3000, reason) == Put::Done;
    line.close_session();
    told && sent && are_closes(line.line().handed(), &[3000, 1001])
}

#[test]
fn what_is_said_to_the_end_still_goes_out(rt: HostRuntime) -> Result<(), Fail> {
    let alloc = rt.alloc();
    let line = LeavingLine::new(script(alloc, &ROWS[1])?);
    assert!(rt; sends_on(line, Vec::new(alloc)));
    Ok(())
}
