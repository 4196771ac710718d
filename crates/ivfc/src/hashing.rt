// Hashing the blocks of a level.
ghost use Rattle.std.specs.Prelude.{◌≡◌, ◌&&◌, List, ◌++◌, ℕ, ◌+◌, ◌-◌, ◌*◌, ◌≤◌, ◌<◌, length, take, replicate, leb};
ghost use Rattle.number.specs.Bytes.{bytes};
ghost use Rattle.number.specs.Blocks.{blocks, block_size};
ghost use Rattle.sha256.specs.Sha256.{sha256};
ghost use Rattle.sha256.specs.Running.{Holds, longest};
ghost use Rattle.ivfc.specs.Blocks.{block};
ghost use Rattle.ivfc.specs.Rows.{digests};
ghost use Rattle.ivfc.specs.Views.{level_of, content_of};

use super::gathering::level_of;
use super::{Digests, Reader};
use lanes::digest_eight;
use number::Level;
use number::blocks::{block_length, block_size};
use sha256::running::{Running, finish, start, update};

// How many blocks are hashed side by side.
const LANES: u64 = 8;
// A block of SHA-256: those that are hashed side by side are made of whole ones.
const HASHED: u64 = 64;
// How many zeros are fed at once: a block of SHA-256.
const ZEROS: usize = 64;

// Feeds n zeros to a running digest.
fn feed_zeros(running: Running, n: u64) -> Running
    requires { running.total + n ≤ longest }
    ensures { (m : List ℕ) → Holds running m → Holds result (m ++ replicate n 0) }
{
    let zeros = [0u8; ZEROS];
    let mut fed = running;
    for _k in 0..n / ZEROS as u64 {
        fed = update(fed, &zeros);
    }
    let rest = n as usize % ZEROS;
    update(fed, &zeros[..rest])
}

// The eight blocks from b on come before end, are whole, and can be hashed side by side.
fn eight_whole(level: Level, b: u64, end: u64) -> bool
    requires { (level.log ≤ 16) × (b < end) × (end ≤ blocks level) × (level.size ≤ 0x4000000) }
    ensures { result ≡ (leb 64 (block_size level) && (leb (b + 8) end && leb ((b + 8) * block_size level) level.size)) }
{
    let unit = block_size(level);
    (HASHED <= unit) & ((b + LANES <= end) & ((b + LANES) * unit <= level.size))
}

impl Reader<'_> {
    // Feeds the bytes of level i from x up to end to a running digest, run by run.
    fn feed_level(self, running: Running, i: u64, x: u64, end: u64) -> Running
        requires { (i ≤ 4) × (x ≤ end) × (end ≤ (level_of self.view i).size) × (running.total + (end - x) ≤ longest) }
        ensures total_value { result.total ≡ running.total + (end - x) }
        ensures by_index { (m : List ℕ) → Holds running m → Holds result (m ++ bytes (content_of self.entry.view self.entry.image.now i) x (end - x)) }
    {
        let mut fed = running;
        let mut at = x;
        // A `while`: each turn goes on by as many bytes as stand in one piece.
        while at < end {
            let piece = self.run_of(i, at, end);
            fed = update(fed, piece);
            at += piece.len() as u64;
        }
        fed
    }

    // The digest of block b of level i: of its bytes, followed by zeros up to the block size.
    pub fn digest_block(self, i: u64, b: u64) -> [u8; 32]
        requires { (i ≤ 4) × (b < blocks (level_of self.view i)) }
        ensures { result ≡ sha256 (block (level_of self.entry.view i) (content_of self.entry.view self.entry.image.now i) b) }
    {
        let level = level_of(self.view, i);
        let unit = block_size(level);
        let own = block_length(level, b);
        let x = b * unit;
        let fed = self.feed_level(start(), i, x, x + own);
        finish(feed_zeros(fed, unit - own))
    }

    // The digest of block b alone.
    fn digest_one(self, i: u64, b: u64) -> Digests
        requires { (i ≤ 4) × (b < blocks (level_of self.view i)) }
        ensures { (result.count ≡ 1) × (length result.bytes ≡ 256) × (take 32 result.bytes ≡ digests (level_of self.entry.view i) (content_of self.entry.view self.entry.image.now i) b 1) }
    {
        let digest = self.digest_block(i, b);
        let mut bytes = [0u8; 256];
        bytes[..32].copy_from_slice(&digest);
        Digests { count: 1, bytes }
    }

    // The digests of blocks of level i from b on: of eight that come before end and lie whole in one piece of the image, side by side, else of
    // b alone.
    pub fn digests_from(self, i: u64, b: u64, end: u64) -> Digests
        requires { (i ≤ 4) × (b < end) × (end ≤ blocks (level_of self.view i)) }
        ensures count_nonzero { (0 < result.count) × (result.count ≤ 8) × (b + result.count ≤ end) × (length result.bytes ≡ 256) }
        ensures bytes_value { take (32 * result.count) result.bytes ≡ digests (level_of self.entry.view i) (content_of self.entry.view self.entry.image.now i) b result.count }
    {
        let level = level_of(self.view, i);
        if eight_whole(level, b, end) {
            let unit = block_size(level);
            let piece = self.run_of(i, b * unit, (b + LANES) * unit);
            if piece.len() as u64 == LANES * unit {
                let bytes = digest_eight(piece, unit as usize);
                return Digests {
                    count: LANES,
                    bytes,
                };
            }
        }
        self.digest_one(i, b)
    }
}
