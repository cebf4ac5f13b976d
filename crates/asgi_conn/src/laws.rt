//! Laws of a conversation and of every schedule of an exchange.
pub use asgi_conversation::laws::{
    a_failed_write_ends_an_exchange, a_reader_ends_a_conversation, a_reader_ends_an_exchange,
    a_reader_leads_from_exchange_to_exchange, an_exchange_is_given_up, answers_are_one,
    answers_to_a_front_come_first, conversation_is_one, echo_says_the_body_back,
    ends_make_a_conversation, every_schedule, exchanges_make_a_conversation_so_far,
    refusals_are_read_back, requests_are_the_first_heads, responses_are_read_back,
    same_bytes_are_answered_alike, what_is_written_is_a_beginning,
};
