//! The text of lines.
use asgi_log::{line_of, lost_line, moment_after};
use log::{Level, Metadata, Record};
use std::test::Fail;
use std::time::Duration;

const ROWS: [(Level, &str, &str, &str); 4] = [
    (
        Level::Info,
        "nomtsage::seated",
        "listening on http://127.0.0.1:8000",
        "[INFO  nomtsage::seated] listening on http://127.0.0.1:8000\n",
    ),
    (Level::Error, "a", "", "[ERROR a] \n"),
    (Level::Warn, "", "x", "[WARN ] x\n"),
    (Level::Debug, "b::c", "one: two", "[DEBUG b::c] one: two\n"),
];

#[test]
fn a_line_has_its_moment_and_then_what_the_record_says(rt: HostRuntime) -> Result<(), Fail> {
    let moment = moment_after(Duration::new(1_796_030_448, 123_000_000));
    let time = match &moment {
        Some(moment) => Some(moment.as_str()),
        None => None,
    };
    for (level, target, text, wanted) in ROWS {
        let record = Record::new(Metadata::new(level, target), text, (), ());
        let line = line_of(rt.alloc(), None, &record)?;
        assert_eq!(rt; line.as_str(), wanted);
        let line = line_of(rt.alloc(), time, &record)?;
        assert_eq!(rt;
            line.as_str().strip_prefix("2026-11-30T09:20:48.123Z "),
            Some(wanted)
        );
    }
    Ok(())
}

#[test]
fn lost_lines_are_told_in_a_line(rt: HostRuntime) -> Result<(), Fail> {
    for (lost, wanted) in [
        (1, "[WARN  asgi_log] 1 line of the log was lost\n"),
        (2, "[WARN  asgi_log] 2 lines of the log were lost\n"),
        (
            u64::MAX,
            "[WARN  asgi_log] 18446744073709551615 lines of the log were lost\n",
        ),
    ] {
        let line = lost_line(rt.alloc(), None, lost)?;
        assert_eq!(rt; line.as_str(), wanted);
    }
    Ok(())
}
