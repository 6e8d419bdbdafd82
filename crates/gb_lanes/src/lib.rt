//! SHA-256 of four contents side by side, each in one lane of a vector (FIPS 180-4).
//!
//! `digest_four` returns, for four contents of any lengths, the digest that the kit's `sha2`
//! defines. It takes no memory.
//!
//! The blocks that all four have are hashed side by side. The remaining blocks of the longer ones
//! are hashed one content at a time, in all lanes. This takes half the time if the four are of
//! about one length; otherwise `sha2` digests them one after another. No clause says how fast it
//! is. Out of scope: rounds of one content next to those of four; `sha2` has them, but cannot start
//! from a state.
#![tactic(auto)]

ghost use Rattle.std.specs.Prelude.{◌≡◌, ◌≤◌, [], ◌∷◌};
ghost use Rattle.sha2.specs.Sha256.{sha256};
ghost use Rattle.gb_lanes.specs.Padded.{block_count};

use four::{lane_of, side_by_side};
use one::finish;
use padded::Padded;
use sha2::{Digest, Sha256};

mod constants;
mod four;
mod lanes;
mod one;
mod padded;
mod rounds;

/// The SHA-256 digest of each of four contents, in their order.
pub fn digest_four(first: &[u8], second: &[u8], third: &[u8], fourth: &[u8]) -> [[u8; 32]; 4]
    ensures { result ≡ sha256 first.now ∷ sha256 second.now ∷ sha256 third.now ∷ sha256 fourth.now ∷ [] }
{
    let counts = [
        Padded::new(first).block_count(),
        Padded::new(second).block_count(),
        Padded::new(third).block_count(),
        Padded::new(fourth).block_count(),
    ];
    let least = counts[0].min(counts[1]).min(counts[2]).min(counts[3]);
    let most = counts[0].max(counts[1]).max(counts[2]).max(counts[3]);
    if most.saturating_sub(least) > least / 2 {
        return [
            digest_alone(first),
            digest_alone(second),
            digest_alone(third),
            digest_alone(fourth),
        ];
    }
    digest_alike(
        &Padded::new(first),
        &Padded::new(second),
        &Padded::new(third),
        &Padded::new(fourth),
        least,
    )
}

fn digest_alone(content: &[u8]) -> [u8; 32]
    ensures { result ≡ sha256 content.now }
{
    let mut hasher = Sha256::new();
    hasher.update(content);
    hasher.finalize()
}

/// The digests of four messages that all have at least `shared` blocks.
fn digest_alike(
    first: &Padded,
    second: &Padded,
    third: &Padded,
    fourth: &Padded,
    shared: usize,
) -> [[u8; 32]; 4]
    requires first { shared ≤ block_count first.now.content.now }
    requires second { shared ≤ block_count second.now.content.now }
    requires third { shared ≤ block_count third.now.content.now }
    requires fourth { shared ≤ block_count fourth.now.content.now }
    ensures { result ≡ sha256 first.now.content.now ∷ sha256 second.now.content.now
        ∷ sha256 third.now.content.now ∷ sha256 fourth.now.content.now ∷ [] }
{
    let states = side_by_side(first, second, third, fourth, shared);
    [
        finish(first, lane_of(states, 0), shared),
        finish(second, lane_of(states, 1), shared),
        finish(third, lane_of(states, 2), shared),
        finish(fourth, lane_of(states, 3), shared),
    ]
}
