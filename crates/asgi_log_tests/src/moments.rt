//! Moments as text (RFC 3339, section 5.6). Each row up to its fraction is what `date -u -d @N +%Y-%m-%dT%H:%M:%S` prints.
use asgi_log::moment_after;
use std::test::Fail;
use std::time::Duration;

/// Seconds and nanoseconds since 1970, and the text.
const ROWS: [(u64, u32, &str); 12] = [
    (0, 0, "1970-01-01T00:00:00.000Z"),
    (1, 999_999_999, "1970-01-01T00:00:01.999Z"),
    (951_782_399, 1_000_000, "2000-02-28T23:59:59.001Z"),
    (951_782_400, 999_999, "2000-02-29T00:00:00.000Z"),
    (1_709_164_800, 10_000_000, "2024-02-29T00:00:00.010Z"),
    (1_709_251_199, 100_000_000, "2024-02-29T23:59:59.100Z"),
    (1_796_030_448, 123_456_789, "2026-11-30T09:20:48.123Z"),
    (1_798_708_848, 90_000_000, "2026-12-31T09:20:48.090Z"),
    (4_102_444_799, 500_000_000, "2099-12-31T23:59:59.500Z"),
    (4_107_542_399, 0, "2100-02-28T23:59:59.000Z"),
    (4_107_542_400, 0, "2100-03-01T00:00:00.000Z"),
    (253_402_207_200, 999_999_999, "9999-12-30T22:00:00.999Z"),
];

#[test]
fn a_moment_is_written_as_a_date_and_a_time(rt: HostRuntime) -> Result<(), Fail> {
    for (seconds, nanos, text) in ROWS {
        let Some(moment) = moment_after(Duration::new(seconds, nanos)) else {
            assert!(rt; false, "{text}");
            continue;
        };
        assert_eq!(rt; moment.as_str(), text);
    }
    Ok(())
}

#[test]
fn a_moment_past_those_of_four_digits_has_no_text(rt: HostRuntime) -> Result<(), Fail> {
    for seconds in [253_402_207_201, 253_402_300_800, u64::MAX] {
        assert!(rt;
            moment_after(Duration::new(seconds, 0)).is_none(),
            "{seconds}"
        );
    }
    Ok(())
}
