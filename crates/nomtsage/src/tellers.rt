//! What is told of connections.

use asgi_conn::Report;
use asgi_reactor::Departure;
use asgi_server::{OnEnd, Teller};
use asgi_types::Peer;
use log::{Log, info};
use std::sync::atomic::{AtomicU64, Ordering};

/// Gets reports, and tells nobody.
#[derive(Clone, Copy, Debug)]
pub struct Quiet;

impl Teller<Report> for Quiet {
    ghost tells = { λ _ _ _ _. Unit {0} };

    fn tell(&mut self, _number: u64, _report: &Report) {}
}

/// Tells the report of a connection, and then what is to be called as it ends.
#[derive(Drop)]
pub(crate) struct Tells<'a, K, E> {
    pub(crate) on_report: K,
    pub(crate) on_end: &'a E,
}

impl<K: Teller<Report>, E: OnEnd> Teller<Departure> for Tells<'_, K, E> {
    ghost tells = { λ was is number departure. K.tells was.on_report is.on_report number departure.report };

    fn tell(&mut self, number: u64, departure: &Departure) {
        self.on_report.tell(number, &departure.report);
        self.on_end.ended(&departure.report, &departure.client);
    }
}

/// Writes a line of the log as each connection ends: how many have ended with it, its client, how many requests it had, and
/// how it ended.
#[derive(Drop)]
pub struct LogLines<'a, R> {
    rt: &'a R,
    ended: AtomicU64,
}

impl<'a, R: Log> LogLines<'a, R> {
    /// Writes to this log.
    pub fn new(rt: &'a R) -> Self {
        LogLines {
            rt,
            ended: AtomicU64::new(0),
        }
    }
}

impl<'a, R: Log> OnEnd for LogLines<'a, R> {
    fn ended(&self, report: &Report, client: &Option<Peer>) {
        let rt = self.rt;
        let number = self.ended.fetch_add(1, Ordering::SeqCst).saturating_add(1);
        let requests = report.exchanges;
        let outcome = report.outcome;
        match client {
            Some(peer) => {
                let host = peer.host.as_str();
                let port = peer.port;
                info!(rt; "connection {number}: {host} port {port}, {requests} requests, {outcome}");
            }
            None => {
                info!(rt; "connection {number}: {requests} requests, {outcome}");
            }
        }
    }
}
