//! The blocks that all four messages have, hashed side by side.
ghost use Rattle.std.specs.Prelude.{◌≡◌, ℕ, ◌<◌, ◌≤◌};
ghost use Rattle.sha2.specs.Sha256.{hash_after, initial_hash_256, padded_message};
ghost use Rattle.gb_lanes.specs.Lanes.{in_lane, lane};
ghost use Rattle.gb_lanes.specs.Padded.{block_count};

use crate::constants::INITIAL;
use crate::padded::Padded;
use crate::rounds::compress_four;
use std::simd::u32x4;

// The initial hash value of every message, in each lane.
fn initial_states() -> [u32x4; 8]
    ensures { (j : ℕ) → j < 4 → lane j result ≡ initial_hash_256 }
{
    [
        u32x4::splat(INITIAL[0]),
        u32x4::splat(INITIAL[1]),
        u32x4::splat(INITIAL[2]),
        u32x4::splat(INITIAL[3]),
        u32x4::splat(INITIAL[4]),
        u32x4::splat(INITIAL[5]),
        u32x4::splat(INITIAL[6]),
        u32x4::splat(INITIAL[7]),
    ]
}

// The hash values after the first `count` blocks of each message.
pub(crate) fn side_by_side(
    first: &Padded,
    second: &Padded,
    third: &Padded,
    fourth: &Padded,
    count: usize,
) -> [u32x4; 8]
    requires first { count ≤ block_count first.now.content.now }
    requires second { count ≤ block_count second.now.content.now }
    requires third { count ≤ block_count third.now.content.now }
    requires fourth { count ≤ block_count fourth.now.content.now }
    ensures { (j : ℕ) → j < 4 → lane j result ≡ hash_after initial_hash_256 (padded_message
        (in_lane first.now.content.now second.now.content.now third.now.content.now
        fourth.now.content.now j)) count }
{
    let mut states = initial_states();
    'taken: for i in 0..count {
        let next = compress_four(
            states,
            first.block(i),
            second.block(i),
            third.block(i),
            fourth.block(i),
        );
        states = next;
    }
    states
}

// The hash value of one message.
pub(crate) fn lane_of(states: [u32x4; 8], which: usize) -> [u32; 8]
    requires { which < 4 }
    ensures { result ≡ lane which states }
{
    [
        states[0].to_array()[which],
        states[1].to_array()[which],
        states[2].to_array()[which],
        states[3].to_array()[which],
        states[4].to_array()[which],
        states[5].to_array()[which],
        states[6].to_array()[which],
        states[7].to_array()[which],
    ]
}
