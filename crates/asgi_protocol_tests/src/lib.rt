//! Tests of `asgi_protocol` on its public calls: the judge, on tables of events, each with the verdict that ASGI and the RFCs give it.
#![tactic(auto)]

#[cfg(test)]
mod verdicts;
