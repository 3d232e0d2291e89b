//! Where a text has its first byte that a JSON string escapes. It is looked for in blocks, by one test of all bytes of a block.
ghost use Rattle.std.specs.Prelude.{◌≡◌, ◌+◌, ◌≤◌, length, take, drop, map, position};
ghost use Rattle.std.specs.List.{position_or_len};
ghost use Rattle.std.specs.Simd.Lanes.{mask_l};
ghost use Rattle.json.specs.Run.{is_stop};

use std::simd::prelude::*;

/// How many bytes a block has.
const BLOCK: usize = 32;

/// The place of the first quote, backslash or control byte.
pub(super) fn first_stop(bytes: &[u8]) -> Option<usize>
    ensures { result ≡ position is_stop bytes.now }
{
    let Some(last) = bytes.len().checked_sub(BLOCK) else {
        return bytes.iter().position(|byte| is_stop(*byte));
    };
    let mut from = 0;
    while from < last {
        let run = plain_run(bytes, from);
        if run < BLOCK {
            return Some(from + run);
        }
        from += BLOCK;
    }
    // The last block ends where the text ends, so it may begin in the one before it.
    let run = plain_run(bytes, last);
    if run < BLOCK {
        return Some(last + run);
    }
    None
}

fn is_stop(byte: u8) -> bool
    ensures { result ≡ is_stop byte }
{
    byte == b'"' || byte == b'\\' || byte < 32
}

// How many bytes stand before the first stop of the block there; all of them, where it has none.
#[tactic(auto, using(crate::proofs::FirstStopLaws::none_in_block, crate::proofs::FirstStopLaws::first_in_block))]
fn plain_run(bytes: &[u8], from: usize) -> usize
    requires { from + 32 ≤ length bytes.now }
    ensures { result ≡ position_or_len is_stop (take 32 (drop from bytes.now)) }
{
    let mask = mask_of(u8x32::from_slice(&bytes[from..]));
    if mask == 0 {
        BLOCK
    } else {
        mask.trailing_zeros() as usize
    }
}

// A bit for each byte, the lowest for the first: whether it is a stop.
fn mask_of(block: u8x32) -> u64
    ensures { result ≡ mask_l (map is_stop block) }
{
    let quotes = block.simd_eq(u8x32::splat(b'"'));
    let backslashes = block.simd_eq(u8x32::splat(b'\\'));
    let controls = block.simd_lt(u8x32::splat(32));
    (quotes | backslashes | controls).to_bitmask()
}
