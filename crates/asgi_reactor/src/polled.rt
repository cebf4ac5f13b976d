//! A socket that never waits.
use crate::draining::{Left, drain};
use crate::faults::may_pass;
use crate::held::{Held, JOINED, Took};
use asgi_ahead::Ahead;
use mio::net::TcpStream;
use std::alloc::Global;
use std::cell::{Cell, RefCell};
use std::io::{self, ErrorKind, Read, Write};
use std::net::Shutdown;

/// How many bytes are read ahead of what is asked for.
const AHEAD: u64 = 65_536;

/// A socket that never waits. It is read only once it was told that something may be there, until a read found less than
/// it had room for; after one that filled its room more is read at once than is asked for (`Ahead`), and the next reads give
/// that. What is written is held as long as it is little, and counts as written: it goes out in one write before the socket
/// is read, and where `push` says so. What the socket does not take waits for room, and goes out before anything else is
/// read or written. If memory for it is refused, a write takes only what the socket took.
#[derive(Drop)]
pub struct Polled {
    stream: TcpStream,
    held: RefCell<Held>,
    // What was read of the stream and not given yet.
    ahead: RefCell<Ahead>,
    // A read may find something.
    is_readable: Cell<bool>,
    // The peer sends no more, or the socket failed: each read tells at once.
    is_ended: Cell<bool>,
    // How many bytes were given, or dropped, since it was asked for.
    came: Cell<u64>,
    // Nothing more is read.
    is_deaf: Cell<bool>,
    // What is held waits for room.
    waits: Cell<bool>,
    // How many bytes of what was held have left since it was asked for.
    left: Cell<u64>,
    // Something was written, and from the second write on none waits for an acknowledgement of the one before.
    has_written: Cell<bool>,
    is_prompt: Cell<bool>,
    // Nothing more can be written, and the error of the push that told so.
    is_broken: Cell<bool>,
    why: Cell<Option<io::Error>>,
    // A write has failed, so its connection was told that not all has left.
    is_told: Cell<bool>,
    // The write half was shut.
    is_shut: Cell<bool>,
}

impl Polled {
    /// A socket over this stream, which does not block, and of which nothing was read yet.
    pub fn new(alloc: Global, stream: TcpStream) -> Self {
        Polled {
            stream,
            held: RefCell::new(Held::new(alloc)),
            ahead: RefCell::new(Ahead::new(alloc)),
            is_readable: Cell::new(false),
            is_ended: Cell::new(false),
            came: Cell::new(0),
            is_deaf: Cell::new(false),
            waits: Cell::new(false),
            left: Cell::new(0),
            has_written: Cell::new(false),
            is_prompt: Cell::new(false),
            is_broken: Cell::new(false),
            why: Cell::new(None),
            is_told: Cell::new(false),
            is_shut: Cell::new(false),
        }
    }

    /// Something may be there to be read.
    pub fn may_be_read(&self) {
        self.is_readable.set(true);
    }

    /// The peer sends no more, or the socket failed.
    pub fn has_ended(&self) {
        self.is_readable.set(true);
        self.is_ended.set(true);
    }

    /// How many bytes were given, or dropped as it is closed, since this was asked the last time.
    pub fn came(&self) -> u64 {
        self.came.replace(0)
    }

    /// Gives back the memory for what is read ahead and for what waits to be written, unless something is held in it.
    pub fn let_go(&self) {
        if let Ok(mut ahead) = self.ahead.try_borrow_mut() {
            ahead.let_go();
        }
        if let Ok(mut held) = self.held.try_borrow_mut() {
            held.let_go();
        }
    }

    /// How many bytes are held for its client: those that wait to be written, and the memory for what was read ahead, if some is there.
    pub fn holds(&self) -> u64 {
        self.written_ahead().saturating_add(self.read_ahead())
    }

    /// How many bytes wait to be written, if they may still be.
    fn written_ahead(&self) -> u64 {
        if self.is_broken.get() {
            return 0;
        }
        match self.held.try_borrow() {
            Ok(held) => held.len() as u64,
            Err(_) => 0,
        }
    }

    /// How much memory there is for what was read ahead, if some is there.
    fn read_ahead(&self) -> u64 {
        match self.ahead.try_borrow() {
            Ok(ahead) => { if ahead.is_empty() { 0 } else { AHEAD } }
            Err(_) => 0,
        }
    }

    /// From here on each read would wait.
    pub fn stop_reading(&self) {
        self.is_deaf.set(true);
    }

    /// Whether some of what is held waits for room.
    pub fn waits(&self) -> bool {
        self.waits.get()
    }

    /// Writes once what is held, and returns whether none of it waits for room: all of it is out, or can't be written any more.
    pub fn push(&self) -> bool {
        let is_out = self.push_once();
        self.waits.set(!is_out);
        is_out
    }

    fn push_once(&self) -> bool {
        if self.is_broken.get() {
            return true;
        }
        let Ok(mut held) = self.held.try_borrow_mut() else {
            return false;
        };
        if held.is_empty() {
            return true;
        }
        self.begin_write();
        let before = held.len();
        let mut stream = &self.stream;
        let pushed = held.push(&mut stream);
        let left = before.saturating_sub(held.len());
        self.left.set(self.left.get().saturating_add(left as u64));
        match pushed {
            Ok(all) => all,
            Err(e) => {
                if !may_pass(&e) {
                    self.is_broken.set(true);
                    self.why.set(Some(e));
                }
                self.is_broken.get()
            }
        }
    }

    /// The stream is to be written. A response may leave in several writes, none of which is to wait for an acknowledgement of
    /// the one before; of a connection with one write the system is not asked for that.
    fn begin_write(&self) {
        if self.has_written.replace(true) && !self.is_prompt.replace(true) {
            let _delays = self.stream.set_nodelay(true);
        }
    }

    /// How many bytes of what was held have left since this was asked the last time.
    pub fn left(&self) -> u64 {
        self.left.replace(0)
    }

    /// What was said to be written and has not left, if it is closed now and no write has told its connection of that: how many bytes,
    /// and the system's error if it was one.
    pub fn unsent(&self) -> Option<(usize, Option<io::Error>)> {
        if self.is_told.get() {
            return None;
        }
        match self.held.try_borrow() {
            Ok(held) if !held.is_empty() => Some((held.len(), self.why.get())),
            Ok(_) => None,
            Err(_) => None,
        }
    }

    /// Its client takes too little: nothing more is written to it, and nothing is read of it.
    pub fn give_up(&self) {
        let _shut = self.stream.shutdown(Shutdown::Both);
        self.is_broken.set(true);
        self.is_shut.set(true);
        self.has_ended();
    }

    /// Goes on to close the connection: writes what is held, shuts the write half, and reads what the peer still sends
    /// (RFC 9112, section 9.6), each time it is asked, the first time only if something may be there. `came` has how much that was.
    pub fn close(&self) -> Left {
        if !self.push() {
            return Left::Later;
        }
        if !self.is_shut.get() {
            self.is_shut.set(true);
            self.came.set(0);
            if self.stream.shutdown(Shutdown::Write).is_err() {
                return Left::Nothing;
            }
            if !self.is_readable.get() {
                return Left::Later;
            }
        }
        let mut stream = &self.stream;
        let drained = drain(&mut stream);
        self.note_came(drained.count);
        drained.left
    }

    /// So many more bytes were given, or dropped.
    fn note_came(&self, many: usize) {
        self.came.set(self.came.get().saturating_add(many as u64));
    }

    /// Whether a read may find something: what was read ahead, or what the socket has. What is held has left before the socket
    /// is read, and what waits for room before anything is given.
    fn may_find(&mut self) -> bool {
        if !self.ahead.get_mut().is_empty() {
            return !self.waits.get() || self.push();
        }
        self.push() && self.is_readable.get()
    }

    /// What the outcome of a read of the socket, which filled its room or did not, says of the next one.
    fn note(&self, read: &io::Result<usize>, was_filled: bool) {
        if self.is_ended.get() {
            return;
        }
        match read {
            Ok(_) => self.is_readable.set(was_filled),
            Err(e) => self.is_readable.set(e.kind() != ErrorKind::WouldBlock),
        }
    }
}

fn would_block() -> io::Error {
    io::Error::from(ErrorKind::WouldBlock)
}

impl Read for Polled {
    fn read(&mut self, buf: &mut [u8]) -> io::Result<usize> {
        if !self.may_find() || self.is_deaf.get() {
            return Err(would_block());
        }
        let ahead = self.ahead.get_mut();
        let is_of_socket = ahead.is_empty();
        let read = ahead.read(&mut self.stream, buf);
        let was_filled = ahead.was_filled();
        if let Ok(many) = &read {
            self.note_came(*many);
        }
        if is_of_socket {
            self.note(&read, was_filled);
        }
        read
    }
}

impl Write for Polled {
    fn write(&mut self, buf: &[u8]) -> io::Result<usize> {
        if self.is_broken.get() {
            self.is_told.set(true);
            return self.stream.write(buf);
        }
        if buf.len() > JOINED.saturating_sub(self.held.get_mut().len()) {
            // What is held may leave in a write of its own.
            self.has_written.set(true);
            self.begin_write();
        }
        let held = self.held.get_mut();
        let wrote = held.join(&mut self.stream, buf);
        self.waits.set(held.len() > JOINED);
        self.is_told.set(wrote.is_err());
        match wrote? {
            Took::All => Ok(buf.len()),
            Took::Part(0, _) => Err(would_block()),
            Took::Part(many, _) => Ok(many),
        }
    }

    fn flush(&mut self) -> io::Result<()> {
        Ok(())
    }
}
