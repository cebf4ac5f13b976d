//! How far a response is.

/// How far the response of the events taken so far is.
#[derive(Clone, Copy, Debug, PartialEq, Eq)]
pub enum Progress {
    /// No body was taken: nothing of the response is written.
    Nothing,
    /// The head and a body are written, and another body may follow; or an accept or a close was
    /// sent for an opening handshake, which is no response.
    Begun,
    /// The last body is written.
    Complete {
        /// Whether the connection closes after the response (RFC 9112, section 9.6): because of the
        /// request, or because of the response's own head.
        closes: bool,
    },
}
