//! Tests of `asgi_response` on its public calls: the text of responses, denials and refusals.
#![tactic(auto)]

#[cfg(test)]
mod texts;
