//! Mounts: which prefixes are taken, and which application a path goes to.
use crate::rows::Offered::{Shutdown, Startup};
use crate::rows::{Asked, CLOSED, Held, Row, SILENCE, USUAL, chars, run};
use asgi_apps::{AppFault, Life, MountError, Mounts, RootPath};
use asgi_types::Kind;
use std::alloc::{AllocError, AllocGlobal, Global};
use std::random::RandomSource;

/// `RootPath` under each of the prefixes.
fn mounted(alloc: Global, prefixes: &[&str]) -> Result<Mounts<RootPath>, MountError> {
    let mut mounts = Mounts::new(alloc);
    mount_all(alloc, &mut mounts, prefixes)?;
    Ok(mounts)
}

fn mount_all(
    alloc: Global,
    mounts: &mut Mounts<RootPath>,
    prefixes: &[&str],
) -> Result<(), MountError> {
    for prefix in prefixes {
        mounts.mount(chars(alloc, prefix), RootPath)?;
    }
    Ok(())
}

/// Whether these applications send what the row holds, or their fault.
fn mounted_run<R: RandomSource + AllocGlobal>(
    rt: &R,
    prefixes: &[&str],
    asked: Asked,
    row: Row,
) -> Result<bool, AppFault> {
    match mounted(rt.alloc(), prefixes) {
        Ok(mounts) => run(rt, mounts, asked, row),
        Err(_) => Err(AppFault::NoMemory(AllocError)),
    }
}

/// The prefixes that are mounted, `root_path`, the path, and what is sent over HTTP.
type Path = (
    &'static [&'static str],
    &'static str,
    &'static str,
    &'static str,
);

/// What is sent if the application gets this root path.
const EMPTY: &str = "start 200 content-type=text/plain|last \n|returned";

const A: &str = "start 200 content-type=text/plain|last /a\n|returned";

const A_A_B: &str = "start 200 content-type=text/plain|last /a/a/b\n|returned";

const A_B: &str = "start 200 content-type=text/plain|last /a/b\n|returned";

const R: &str = "start 200 content-type=text/plain|last /r\n|returned";

const R_A: &str = "start 200 content-type=text/plain|last /r/a\n|returned";

/// What is sent if there is no application.
const MISSED: &str = "start 404 content-length=0|last |returned";

const TWO: &[&str] = &["/a", "/a/b"];

const THREE: &[&str] = &["/a/b", "", "/a"];

const NONE: &[&str] = &[];

const UNDER_ROOT: Path = (TWO, "/r", "/r/a/q", R_A);

const NOWHERE: Path = (TWO, "", "/x", MISSED);

const PATHS: &[Path] = &[
    (TWO, "", "/a/bc", A),
    (TWO, "", "/a/b", A_B),
    (TWO, "", "/a/b/", A_B),
    (TWO, "", "/a/b/c", A_B),
    (TWO, "", "/a", A),
    NOWHERE,
    (TWO, "", "/ab", MISSED),
    (TWO, "", "/", MISSED),
    (TWO, "", "", MISSED),
    UNDER_ROOT,
    (TWO, "/r", "/a/q", R_A),
    (TWO, "/r", "/r/x", MISSED),
    (TWO, "/a", "/a/a/b/c", A_A_B),
    (THREE, "", "/x", EMPTY),
    (THREE, "/r", "/r", R),
    (THREE, "", "/a/b/c", A_B),
    (THREE, "", "/a/c", A),
    (NONE, "", "/a", MISSED),
];

fn run_path<R: RandomSource + AllocGlobal>(rt: &R, given: &Path) -> Result<bool, AppFault> {
    let (prefixes, root_path, path, expected) = *given;
    let asked = Asked {
        path,
        root_path,
        held: Held::Nothing,
    };
    mounted_run(rt, prefixes, asked, (Kind::Http, SILENCE, expected))
}

/// Whether at this path is sent what the row holds.
fn is_said<R: RandomSource + AllocGlobal>(rt: &R, given: &Path) -> bool {
    run_path(rt, given).unwrap_or(false)
}

#[test]
fn the_longest_prefix_takes_the_path(rt: HostRuntime) {
    for (number, given) in PATHS.iter().enumerate() {
        assert!(rt; is_said(&rt, given), "path {number}");
    }
}

/// The prefixes, a path, `root_path`, and the number that is found.
type Numbered = (
    &'static [&'static str],
    &'static str,
    &'static str,
    Option<usize>,
);

const NUMBERED: &[Numbered] = &[
    (THREE, "/a/b", "", Some(0)),
    (THREE, "/ab", "", Some(1)),
    (THREE, "/r/a/", "/r", Some(2)),
    (TWO, "/ab", "", None),
];

fn is_found(alloc: Global, row: &Numbered) -> bool {
    let (prefixes, path, root_path, expected) = *row;
    match mounted(alloc, prefixes) {
        Ok(mounts) => mounts.find(path, root_path) == expected,
        Err(_) => false,
    }
}

#[test]
fn paths_are_found_by_number(rt: HostRuntime) {
    for row in NUMBERED {
        assert!(rt; is_found(rt.alloc(), row), "{}", row.1);
    }
}

/// Nine prefixes, none under another one.
const NINE: &[&str] = &[
    "/00", "/01", "/02", "/03", "/04", "/05", "/06", "/07", "/08",
];

/// Forty prefixes, none under another one.
const FORTY: &[&str] = &[
    "/00", "/01", "/02", "/03", "/04", "/05", "/06", "/07", "/08", "/09", "/10", "/11", "/12",
    "/13", "/14", "/15", "/16", "/17", "/18", "/19", "/20", "/21", "/22", "/23", "/24", "/25",
    "/26", "/27", "/28", "/29", "/30", "/31", "/32", "/33", "/34", "/35", "/36", "/37", "/38",
    "/39",
];

/// The number of the first prefix whose path goes to another application than its own.
fn first_elsewhere(mounts: &Mounts<RootPath>, prefixes: &[&str]) -> Option<usize> {
    for (at, prefix) in prefixes.iter().enumerate() {
        if mounts.find(prefix, "") != Some(at) {
            return Some(at);
        }
    }
    None
}

/// Whether none does if all of these are mounted, in their order.
fn are_found(alloc: Global, prefixes: &[&str]) -> bool {
    match mounted(alloc, prefixes) {
        Ok(mounts) => first_elsewhere(&mounts, prefixes).is_none(),
        Err(_) => false,
    }
}

#[test]
fn each_of_nine_and_of_forty_mounts_is_found(rt: HostRuntime) {
    assert!(rt; are_found(rt.alloc(), NINE) && are_found(rt.alloc(), FORTY));
}

/// A prefix, and what mounting it after those before it returns.
const PREFIXES: &[(&str, Result<(), MountError>)] = &[
    ("a", Err(MountError::BadPrefix)),
    ("/a/", Err(MountError::BadPrefix)),
    ("/", Err(MountError::BadPrefix)),
    ("a/", Err(MountError::BadPrefix)),
    ("/a", Ok(())),
    ("/a", Err(MountError::Taken)),
    ("", Ok(())),
    ("", Err(MountError::Taken)),
    ("/a/b", Ok(())),
    ("//a", Ok(())),
];

/// The number of the first prefix for which something else is returned.
fn first_unlike(alloc: Global, mounts: &mut Mounts<RootPath>) -> Option<usize> {
    for (place, (prefix, expected)) in PREFIXES.iter().enumerate() {
        let mounted = mounts.mount(chars(alloc, prefix), RootPath);
        if (mounted, place) != (*expected, place) {
            return Some(place);
        }
    }
    None
}

/// That number, and where two paths go then.
fn mounted_once(alloc: Global) -> (Option<usize>, Option<usize>, Option<usize>) {
    let mut mounts = Mounts::new(alloc);
    let unlike = first_unlike(alloc, &mut mounts);
    (unlike, mounts.find("/a/b", ""), mounts.find("/x", ""))
}

#[test]
fn a_prefix_is_mounted_once(rt: HostRuntime) {
    assert!(rt; mounted_once(rt.alloc()) == (None, Some(2), Some(1)));
}

/// Whether a session is refused by these.
fn is_closed<R: RandomSource + AllocGlobal>(rt: &R, prefixes: &[&str]) -> bool {
    mounted_run(rt, prefixes, USUAL, CLOSED).unwrap_or(false)
}

#[test]
fn a_session_goes_to_the_application_of_its_path(rt: HostRuntime) {
    assert!(rt; is_closed(&rt, TWO) && is_closed(&rt, NONE));
}

const FAILED: Row = (
    Kind::Lifespan,
    &[Startup, Shutdown],
    "start failed no table|returned",
);

fn mount_two(alloc: Global, mounts: &mut Mounts<Life>) -> Result<(), MountError> {
    mounts.mount(chars(alloc, "/b"), Life::NoStart)?;
    mounts.mount(chars(alloc, ""), Life::Works)
}

fn run_two<R: RandomSource + AllocGlobal>(rt: &R) -> Result<bool, AppFault> {
    let mut mounts = Mounts::new(rt.alloc());
    match mount_two(rt.alloc(), &mut mounts) {
        Ok(()) => run(rt, mounts, USUAL, FAILED),
        Err(_) => Err(AppFault::NoMemory(AllocError)),
    }
}

#[test]
fn the_first_application_gets_the_lifespan(rt: HostRuntime) {
    assert!(rt; run_two(&rt).unwrap_or(false));
}

const STARTED: Row = (Kind::Lifespan, &[Startup], "");

/// Whether the start of these fails.
fn is_failed<R: RandomSource + AllocGlobal>(rt: &R, prefixes: &[&str]) -> bool {
    matches!(
        mounted_run(rt, prefixes, USUAL, STARTED),
        Err(AppFault::Failed)
    )
}

#[test]
fn with_no_application_there_is_no_lifespan(rt: HostRuntime) {
    assert!(rt; is_failed(&rt, NONE) && is_failed(&rt, TWO));
}

/// If an allocation is refused, the fault reports it, and the next call answers whole.
fn is_said_at_last<R: RandomSource + AllocGlobal>(rt: &R, given: &Path) -> bool {
    match run_path(rt, given) {
        Ok(is_same) => is_same,
        Err(AppFault::NoMemory(_)) => is_said(rt, given),
        Err(AppFault::Failed) => false,
    }
}

#[test]
fn memory_for_mounts(rt: HostRuntime) {
    assert!(rt; is_said_at_last(&rt, &UNDER_ROOT) && is_said_at_last(&rt, &NOWHERE));
}

/// If the table does not grow, the mount is refused, and what was mounted stays: whether that is
/// so, and the prefix is mounted then, or at once.
fn is_mounted_at_last(alloc: Global, mounts: &mut Mounts<RootPath>) -> bool {
    match mounts.mount(chars(alloc, "/a"), RootPath) {
        Ok(()) => true,
        Err(refused) => {
            refused == MountError::NoMemory(AllocError)
                && mounts.find("/a", "").is_none()
                && mounts.mount(chars(alloc, "/a"), RootPath).is_ok()
        }
    }
}

/// That, and the number that the path goes to.
fn one_more_mount(alloc: Global) -> (bool, Option<usize>) {
    let mut mounts = Mounts::new(alloc);
    let is_mounted = is_mounted_at_last(alloc, &mut mounts);
    (is_mounted, mounts.find("/a", ""))
}

#[test]
fn memory_for_one_more_mount(rt: HostRuntime) {
    assert!(rt; one_more_mount(rt.alloc()) == (true, Some(0)));
}
