//! An application between its start and its stop, and in between several threads, each with many connections.
ghost use Rattle.std.specs.Prelude.{◌≡◌, ◌+◌, ◌⊎◌, ◌≤◌, All, length, map, Option};
ghost use Rattle.std.specs.declared.io.Error.{Error};
ghost use Rattle.asgi_types.specs.declared.limits.Limits.{Limits};
ghost use Rattle.asgi_many.specs.Serving.{came_in};
ghost use Rattle.asgi_reactor.specs.Accepting.{kept_in};
ghost use Rattle.asgi_reactor.specs.Shares.{known};
ghost use Rattle.nomtsage.specs.Seats.{InSeconds, ServesSeats};
ghost use Rattle.nomtsage.specs.Serving.{LivesOn, around};
ghost use Rattle.nomtsage.specs.Tables.{ServesTables, came_to, first_error, in_all, thread};
ghost use Rattle.nomtsage.specs.private.Together.{IsWithin, all_in};

use crate::ending::{Ending, Served};
use crate::living::{Begun, begin, solo_of};
use crate::seats::{in_seconds, served_in};
use crate::table_engine::{TableEngine, TableEngineOf};
use crate::tellers::Tells;
use asgi_apps::Application;
use asgi_conn::{Host, Report};
use asgi_reactor::{PolledLine, Quota, SocketReactor, Ticketer};
use asgi_server::{OnEnd, Teller};
use asgi_threads::{Abreast, Works, work_abreast};
use asgi_types::{Limits, State};
use asgi_ws::Line;
use log::Log;
use std::alloc::AllocGlobal;
use std::io;
use std::random::RandomSource;
use std::time::Clock;

/// What a thread serves: where its connections come from, what gets their reports, and how it ended, once it has.
#[derive(Drop)]
pub(crate) struct Post<'r, H: Clock, K> {
    pub(crate) reactor: SocketReactor<'r, H>,
    pub(crate) on_report: K,
    pub(crate) how: Served,
}

/// What all threads borrow.
#[derive(Drop)]
struct Serving<'a, H, A, E, G> {
    rt: &'a H,
    limits: &'a Limits,
    seats: usize,
    state: &'a State,
    app: &'a A,
    on_end: &'a E,
    engine: &'a G,
}

impl<
    'a,
    'r,
    H: AllocGlobal + RandomSource,
    R: Clock + Log,
    A,
    E: OnEnd,
    G: TableEngine<A>,
    K: Teller<Report>,
> Works<Post<'r, R, K>> for Serving<'a, H, A, E, G> {
    ghost use Rattle.std.specs.Prelude.{◌≡◌};
    ghost use Rattle.asgi_reactor.specs.Accepting.{kept_in};
    ghost use Rattle.nomtsage.specs.Seats.{ServesSeats};
    ghost use Rattle.nomtsage.specs.Serving.{around};

    ghost works = { λ s was is. ServesSeats ⟦<PolledLine as Line>⟧.state K.tells (G.answers s.app.now) s.limits.now is.reactor.why s.state.now
        (around was.reactor.told.items was.on_report) (around is.reactor.told.items is.on_report) is.how
        × (kept_in is.reactor.told.items is.reactor.left is.reactor.ticketer ≡ kept_in was.reactor.told.items was.reactor.left was.reactor.ticketer) };

    fn work(&self, post: Post<'r, R, K>) -> Post<'r, R, K> {
        let Post {
            mut reactor,
            on_report,
            how: _unserved,
        } = post;
        let mut tells = Tells {
            on_report,
            on_end: self.on_end,
        };
        let how = serve_table(self, &mut reactor, &mut tells);
        // Those that have ended are closed while other threads go on.
        reactor.finish();
        let Tells {
            on_report,
            on_end: _on_end,
        } = tells;
        Post {
            reactor,
            on_report,
            how,
        }
    }
}

/// Serves the connections of one thread.
fn serve_table<
    H: AllocGlobal + RandomSource,
    R: Clock + Log,
    A,
    E: OnEnd,
    G: TableEngine<A>,
    K: Teller<Report>,
>(
    how: &Serving<'_, H, A, E, G>,
    reactor: &mut SocketReactor<'_, R>,
    tells: &mut Tells<'_, K, E>,
) -> Served
    ensures serves { ServesSeats ⟦<PolledLine as Line>⟧.state K.tells (G.answers how.now.app.now) how.now.limits.now reactor.new.why how.now.state.now
        (around reactor.old.told.items tells.old.on_report) (around reactor.new.told.items tells.new.on_report) result }
    ensures kept { kept_in reactor.new.told.items reactor.new.left reactor.new.ticketer ≡ kept_in reactor.old.told.items reactor.old.left reactor.old.ticketer }
{
    match how.engine.serve(
        how.rt, how.limits, how.seats, how.state, how.app, reactor, tells,
    ) {
        Ok(ended) => served_in(ended, reactor.why()),
        Err(_) => Served::NoMemory,
    }
}

/// How threads ended in all: what went wrong in one comes before what went wrong in those after it.
fn in_all(one: Served, others: Served) -> Served
    ensures { result ≡ in_all one others }
{
    match one {
        Served::Each => others,
        Served::ListenerFailed => Served::ListenerFailed,
        Served::NoMemory => Served::NoMemory,
        Served::NoThread => Served::NoThread,
        Served::TooLong => Served::TooLong,
    }
}

/// The same of the threads of these posts.
fn all_in<R: Clock, K>(posts: &[Post<'_, R, K>]) -> Served
    ensures { result ≡ all_in (map (λ p. p.how) posts.now) }
{
    match posts.split_first() {
        Some((first, others)) => in_all(first.how, all_in(others)),
        None => Served::Each,
    }
}

/// The first of the system's errors, if a thread could accept no connection any more.
pub(crate) fn why_of<R: Clock, K>(posts: &[Post<'_, R, K>]) -> Option<io::Error>
    ensures { result ≡ first_error (map (λ p. thread p.reactor.told.items p.on_report p.reactor.why) posts.now) }
{
    let (first, others) = posts.split_first()?;
    match first.reactor.why() {
        Some(why) => Some(why),
        None => why_of(others),
    }
}

/// Takes in what the ticketer of one thread has spent: a ticket for each connection that came to it.
fn absorb<R: Clock, K: Drop>(all: &mut Ticketer<'_>, post: Post<'_, R, K>)
    requires { IsWithin all.old.quota.now post.reactor.told.items post.reactor.left post.reactor.ticketer }
    ensures of { all.new.quota ≡ all.old.quota }
    ensures spent { (known all.new).spent ≡ (known all.old).spent + length (came_in post.entry.reactor.told.items) }
{
    let Post {
        reactor,
        on_report: _on_report,
        how: _how,
    } = post;
    if let Some(ticketer) = reactor.into_ticketer() {
        all.absorb(ticketer);
    }
}

/// Takes in what each thread has spent: no more than there were tickets, so no more connections came to all threads together.
pub(crate) fn settle<R: Clock, K: Drop>(quota: &Quota, posts: Vec<Post<'_, R, K>>)
    requires { All (λ p. IsWithin quota.now p.reactor.told.items p.reactor.left p.reactor.ticketer) posts.items }
    ensures { came_to (map (λ p. thread p.reactor.told.items p.on_report p.reactor.why) posts.entry.items) ≤ quota.now.count }
{
    let mut posts = posts;
    let mut all = quota.ticketer();
    while let Some(post) = posts.pop() {
        absorb(&mut all, post);
    }
    all.settle();
}

/// Serves the connections of all threads, the first of which is the caller's.
fn serve<
    'r,
    H: Host + Sync,
    R: Clock + Log + Sync,
    A: Application + Sync,
    E: OnEnd + Sync,
    G: TableEngineOf<A> + Sync,
    K: Teller<Report> + Drop + Send,
>(how: &Serving<'_, H, A, E, G>, posts: Vec<Post<'r, R, K>>) -> (Served, Vec<Post<'r, R, K>>)
    ensures serves { ServesTables ⟦<PolledLine as Line>⟧.state K.tells (A.answers how.now.app.now) how.now.limits.now how.now.state.now
        (map (λ p. thread p.reactor.told.items p.on_report p.reactor.why) posts.entry.items)
        (map (λ p. thread p.reactor.told.items p.on_report p.reactor.why) result.1.items) result.0 }
    ensures kept { map (λ p. kept_in p.reactor.told.items p.reactor.left p.reactor.ticketer) result.1.items ≡ map (λ p. kept_in p.reactor.told.items p.reactor.left p.reactor.ticketer) posts.entry.items }
{
    let Abreast { parts, has_worked } = work_abreast(how.rt, how, posts);
    if !has_worked {
        return (Served::NoThread, parts);
    }
    (all_in(parts.as_slice()), parts)
}

/// How the connections of several threads are served, and by which application.
#[derive(Drop)]
pub(crate) struct InThreads<'a, H, A, E, G> {
    pub(crate) rt: &'a H,
    pub(crate) limits: &'a Limits,
    pub(crate) seats: usize,
    pub(crate) app: &'a A,
    pub(crate) on_end: &'a E,
    pub(crate) engine: &'a G,
}

/// Starts the application, serves in each thread what its reactor gives, and stops the application. What is called as each
/// connection ends is called in its thread. The application is started and stopped in the caller's.
pub(crate) fn serve_in_tables<
    'r,
    H: Host + Sync,
    R: Clock + Log + Sync,
    A: Application + Sync,
    E: OnEnd + Sync,
    G: TableEngineOf<A> + Sync,
    K: Teller<Report> + Drop + Send,
>(by: &InThreads<'_, H, A, E, G>, posts: Vec<Post<'r, R, K>>) -> (Ending, Vec<Post<'r, R, K>>)
    ensures serves { (seconds : Limits) × InSeconds by.now.limits.now seconds
        × LivesOn (ServesTables ⟦<PolledLine as Line>⟧.state K.tells (A.answers by.now.app.now) seconds) (A.answers by.now.app.now) by.now.limits.now
        (map (λ p. thread p.reactor.told.items p.on_report p.reactor.why) posts.entry.items)
        (map (λ p. thread p.reactor.told.items p.on_report p.reactor.why) result.1.items) result.0 }
    ensures kept { map (λ p. kept_in p.reactor.told.items p.reactor.left p.reactor.ticketer) result.1.items ≡ map (λ p. kept_in p.reactor.told.items p.reactor.left p.reactor.ticketer) posts.entry.items }
{
    let seconds = in_seconds(by.limits);
    let Some((solo, pause)) = solo_of(by.rt) else {
        return (Ending::NoMemory, posts);
    };
    match begin(by.rt, by.limits, by.app, &solo, pause) {
        Begun::Lives(living, state) => {
            let how = Serving {
                rt: by.rt,
                limits: &seconds,
                seats: by.seats,
                state: &state,
                app: by.app,
                on_end: by.on_end,
                engine: by.engine,
            };
            let (served, posts) = serve(&how, posts);
            (living.stop(served), posts)
        }
        Begun::Ends(ending) => (ending, posts),
    }
}
