//! The limits of a connection.
ghost use Rattle.std.specs.Prelude.{◌≡◌, IfOk, IsOk, ◌↔◌, ◌≤◌, ◌^◌};

use thiserror::Error;

/// A limit is outside its range.
#[derive(Clone, Copy, Debug, PartialEq, Eq, Error)]
#[error("a limit is outside its range")]
pub struct BadLimit;

/// What one connection may take. Each value lies in its range.
#[derive(Clone, Copy, Debug, PartialEq, Eq)]
pub struct Limits {
    /// Bytes of a head, and of a trailer section: 64 to 65,535.
    pub max_head: usize,
    /// Fields of a head, and of a trailer section: 1 to 128.
    pub max_headers: usize,
    /// Bytes of a request's body, without the framing of its chunks: at most 2^40.
    pub max_body: u64,
    /// Bytes of one body event: 1 to 65,536.
    pub block: usize,
    /// Events that wait each way: 2 to 1,024.
    pub ring: usize,
    /// Idle turns in a row: at least 1.
    pub idle_turns: u32,
    /// Turns of one connection, and of each start and stop of an application: 1 to 2^48.
    pub turns: u64,
    pub ghost head_in_range: { (64 ≤ max_head) × (max_head ≤ 65535) },
    pub ghost headers_in_range: { (1 ≤ max_headers) × (max_headers ≤ 128) },
    pub ghost body_in_range: { max_body ≤ 2 ^ 40 },
    pub ghost block_in_range: { (1 ≤ block) × (block ≤ 65536) },
    pub ghost ring_in_range: { (2 ≤ ring) × (ring ≤ 1024) },
    pub ghost idle_in_range: { 1 ≤ idle_turns },
    pub ghost turns_in_range: { (1 ≤ turns) × (turns ≤ 2 ^ 48) },
}

impl Limits {
    ghost use Rattle.asgi_types.specs.Ranges.{AreInRange, AreLimits};

    /// The limits given, each in the unit of its field, or `BadLimit` if one is outside its range.
    pub fn new(
        max_head: usize,
        max_headers: usize,
        max_body: u64,
        block: usize,
        ring: usize,
        idle_turns: u32,
        turns: u64,
    ) -> Result<Self, BadLimit>
        ensures accepts { IsOk result ↔ AreInRange max_head max_headers max_body block ring idle_turns turns }
        ensures keeps { IfOk result (λ limits. AreLimits limits max_head max_headers max_body block ring idle_turns turns) }
    {
        let head_fits = 64 <= max_head && max_head <= 65_535;
        let headers_fit = 1 <= max_headers && max_headers <= 128;
        let body_fits = max_body <= 1 << 40;
        let block_fits = 1 <= block && block <= 65_536;
        let ring_fits = 2 <= ring && ring <= 1_024;
        let turns_fit = 1 <= idle_turns && 1 <= turns && turns <= 1 << 48;
        if !(head_fits && headers_fit && body_fits && block_fits && ring_fits && turns_fit) {
            return Err(BadLimit);
        }
        Ok(Limits {
            max_head,
            max_headers,
            max_body,
            block,
            ring,
            idle_turns,
            turns,
        })
    }

    /// The default limits of a server: heads of 16,384 bytes and 64 fields, bodies of 1,048,576
    /// bytes, body events of 16,384 bytes, 16 events each way, 30,000 idle turns in a row and 2^40
    /// turns.
    pub fn usual() -> Self
        ensures { AreLimits result 16384 64 1048576 16384 16 30000 (2 ^ 40) }
    {
        Limits {
            max_head: 16_384,
            max_headers: 64,
            max_body: 1_048_576,
            block: 16_384,
            ring: 16,
            idle_turns: 30_000,
            turns: 1 << 40,
        }
    }
}
