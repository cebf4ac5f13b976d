//! The bytes of a response: the text of the events that an application sends.
//! A text keeps a few numbers; its contract is about the whole list of events.
#![tactic(auto)]

mod append;
mod content;
mod fields;
mod head;
mod laws;
mod progress;
mod refusal;
mod text;

pub use append::append_all;
pub use asgi_io::{Counted, Counts, Wrote, is_passing, write_out};
pub use head::write_field;
pub use laws::{
    added_text_only_grows, begun_responses_get_nothing_more, closed_text_stays,
    denial_is_read_back, denials_are_responses, events_add_their_text, head_is_read_back,
    headers_are_read_back, lawful_is_accepted, passed_is_accepted, response_is_read_back,
    text_only_grows, unbegun_responses_are_replaced,
};
pub use progress::Progress;
pub use refusal::{Input, refusal_text};
pub use text::ResponseText;
