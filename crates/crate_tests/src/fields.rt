//! `js_json`: lists of numbers and times, which no call reads yet, times that no row reaches, and printed faults.

use js_base::{Blob, Moment, read_decimal};
use js_json::{Fields, JsonFault, object, time_text};
use std::alloc::Global;
use std::test::Fail;

/// An object with this value in the field `f`.
fn with_value(alloc: Global, value: &str) -> Result<Fields, JsonFault> {
    let body = format!(in alloc; "{{\"f\":{value}}}")?;
    object(alloc, body.as_bytes())
}

/// That the field `f` is wrong.
fn wrong(alloc: Global) -> Result<JsonFault, Fail> {
    Ok(JsonFault::BadField(Blob::of(alloc, b"f")?))
}

#[test]
fn numbers_are_read(rt: HostRuntime) -> Result<(), Fail> {
    let alloc = rt.alloc();
    let numbers = with_value(alloc, "[7, -1,18446744073709551615]")?.numbers("f")?;
    assert!(rt; numbers.is_some_and(|list| list.as_slice() == [7, -1, (1 << 64) - 1].as_slice()));
    for value in "[1,null]|[1.0]|[1,[2]]|[-0]|1|\"\"|{}".split('|') {
        let told = with_value(alloc, value)?.numbers("f");
        assert_eq!(rt; told, Err(wrong(alloc)?), "{value}");
    }
    assert!(rt; with_value(alloc, "null")?.numbers("f")?.is_none());
    Ok(())
}

/// Texts of times, and the nanoseconds since 1970 at which they are.
fn times() -> &'static str {
    "1970-01-01T00:00:00Z=0|1970-01-01T00:30:00+00:30=0|1970-01-01T23:59:00+23:59=0|1969-12-31T00:01:00-23:59=0\
    |1969-12-31T23:00:01-01:00=1000000000|1970-01-01T00:00:07.000000000Z=7000000000|2000-02-29T00:00:00Z=951782400000000000\
    |2023-11-14T22:13:20Z=1700000000000000000|2023-11-14T22:13:20+00:00=1700000000000000000\
    |2023-11-14T22:13:20-00:00=1700000000000000000|2023-11-14T23:43:20+01:30=1700000000000000000\
    |2023-11-14T17:13:20.0-05:00=1700000000000000000|2023-11-15T00:00:00+01:46=1700000040000000000\
    |2024-02-29T12:00:00Z=1709208000000000000|2100-02-28T23:59:59Z=4107542399000000000|2100-03-01T00:00:00Z=4107542400000000000\
    |2116-02-20T23:53:38Z=4611686018000000000|2116-02-20T23:53:38.4Z=4611686018400000000\
    |2116-02-20T23:53:38.42Z=4611686018420000000|2116-02-20T23:53:38.001Z=4611686018001000000\
    |2116-02-20T23:53:38.42738790Z=4611686018427387900|2116-02-20T23:53:38.427387903Z=4611686018427387903"
}

/// Texts that are no times, or not of a moment from 1970 on and below 2^62 ns.
fn no_times() -> &'static str {
    "|1969-12-31T23:59:59Z|1970-01-01T00:29:59+00:30|1969-12-31T22:59:59-01:00|2116-02-20T23:53:38.427387904Z|2116-02-20T23:53:39Z\
    |0000-01-01T00:00:00Z|9999-12-31T23:59:59Z|2023-02-29T00:00:00Z|2100-02-29T00:00:00Z|2023-04-31T00:00:00Z|2023-04-00T00:00:00Z\
    |2023-00-10T00:00:00Z|2023-13-10T00:00:00Z|2023-11-14T24:00:00Z|2023-11-14T23:60:00Z|2023-11-14T23:59:60Z|2023-11-14T22:13:20.Z\
    |2023-11-14T22:13:20.1234567890Z|2023-11-14T22:13:20,5Z|2023-11-14t22:13:20Z|2023-11-14T22:13:20z|2023-11-14 22:13:20Z\
    |2023-11-14T22:13:20|2023-11-14T22:13Z|2023-11-14|2023-11-14T22:13:20+24:00|2023-11-14T22:13:20+00:60|2023-11-14T22:13:20+0130\
    |2023-11-14T22:13:20+01|2023-11-14T22:13:20+01:3|2023-11-14T22:13:20+01:30:00|2023-11-14T22:13:20Z | 2023-11-14T22:13:20Z\
    |2023-11-14T22:13:20ZZ|2023-11-14T22:13:20Z[UTC]|20231114T221320Z|2023-1-14T22:13:20Z|+002023-11-14T22:13:20Z\
    |2023/11/14T22:13:20Z|2O23-11-14T22:13:20Z"
}

/// What is read of the field `f` with this text.
fn time_of(alloc: Global, text: &str) -> Result<Option<Moment>, JsonFault> {
    let value = format!(in alloc; "\"{text}\"")?;
    with_value(alloc, value.as_str())?.time("f")
}

#[test]
fn times_are_read(rt: HostRuntime) -> Result<(), Fail> {
    let alloc = rt.alloc();
    for row in times().split('|') {
        let (text, nanos) = row.split_once('=').ok_or("no row")?;
        let at = time_of(alloc, text)?.ok_or("no time")?;
        assert_eq!(rt; Ok(at.as_nanos()), read_decimal(nanos.as_bytes()), "{text}");
    }
    for text in no_times().split('|') {
        assert_eq!(rt; time_of(alloc, text), Err(wrong(alloc)?), "{text}");
    }
    for value in ["1", "[]", "{}", "true"] {
        assert_eq!(rt;
            with_value(alloc, value)?.time("f"),
            Err(wrong(alloc)?),
            "{value}"
        );
    }
    Ok(())
}

#[test]
fn early_times_are_written(rt: HostRuntime) -> Result<(), Fail> {
    for (nanos, text) in [
        (0, "1970-01-01T00:00:00.000000000Z"),
        (86_399_999_999_999, "1970-01-01T23:59:59.999999999Z"),
        (951_782_400_000_000_001, "2000-02-29T00:00:00.000000001Z"),
    ] {
        let at = Moment::of(nanos).ok_or("no moment")?;
        assert_eq!(rt; time_text(rt.alloc(), at)?.as_slice(), text.as_bytes());
    }
    Ok(())
}

#[test]
fn faults_are_printed(rt: HostRuntime) -> Result<(), Fail> {
    let text = wrong(rt.alloc())?.to_string(rt.alloc())?;
    assert_eq!(rt; text.as_str(), "field f is wrong");
    Ok(())
}
