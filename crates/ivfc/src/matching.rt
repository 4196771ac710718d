// Comparing blocks with their entries, one level higher.
ghost use Rattle.std.specs.Prelude.{◌≡◌, false, ℕ, ◌+◌, ◌-◌, ◌*◌, ◌≤◌, ◌<◌, length, get_or};
ghost use Rattle.number.specs.Blocks.{blocks};
ghost use Rattle.ivfc.specs.Verified.{zero_entry, vouches, first_not, count_of};
ghost use Rattle.ivfc.specs.Rows.{agree};
ghost use Rattle.ivfc.specs.Views.{level_of, matches};

use super::{Compared, Reader};
use number::runs::same_bytes;

// The size of an entry, to count in slices.
const ENTRY: usize = super::ENTRY as usize;

// An entry of 32 zero bytes.
pub fn zero_entry(entry: &[u8]) -> bool
    ensures { result ≡ zero_entry entry.now }
{
    same_bytes(entry, &[0; ENTRY])
}

// An entry vouches for a block with this digest.
pub fn entry_vouches(digest: &[u8], entry: &[u8]) -> bool
    ensures { result ≡ vouches digest.now entry.now }
{
    same_bytes(digest, entry) & !zero_entry(entry)
}

// Compares digests with entries, one by one.
fn compare(digests: &[u8], entries: &[u8], n: usize) -> Compared
    requires { (length digests.now ≡ 32 * n) × (length entries.now ≡ 32 * n) × (n ≤ 8) }
    ensures hashed_value { (result.hashed ≡ n) × (result.before ≡ first_not (agree digests.now entries.now) 0 n) × (result.matching ≡ count_of (agree digests.now entries.now) n) }
    ensures each_len { (length result.each ≡ 8) × ((j : ℕ) → j < n → get_or result.each j false ≡ agree digests.now entries.now j) }
{
    let mut before = 0;
    let mut matching = 0;
    let mut each = [false; 8];
    for j in 0..n {
        let at = j * ENTRY;
        let end = at + ENTRY;
        let same = entry_vouches(&digests[at..end], &entries[at..end]);
        before += (same & (before == j as u64)) as u64;
        matching += same as u64;
        each[j] = same;
    }
    Compared {
        hashed: n as u64,
        before,
        matching,
        each,
    }
}

impl Reader<'_> {
    // Hashes some blocks of level i from b on, before end, and compares them with their entries.
    pub fn compare_from(self, i: u64, b: u64, end: u64) -> Compared
        requires { (1 ≤ i) × (i ≤ 4) × (b < end) × (end ≤ blocks (level_of self.view i)) }
        ensures hashed_nonzero { (0 < result.hashed) × (b + result.hashed ≤ end) × (b + result.before ≡ first_not (matches self.entry.view self.entry.image.now i) b result.hashed) × (result.hashed ≤ 8) × (length result.each ≡ 8) × ((j : ℕ) → j < result.hashed → get_or result.each j false ≡ matches self.entry.view self.entry.image.now i (b + j)) }
        ensures matching_value { result.matching ≡ count_of (λ (j : ℕ). matches self.entry.view self.entry.image.now i (b + j)) result.hashed }
    {
        let digests = self.digests_from(i, b, end);
        let n = digests.count as usize;
        let size = n * ENTRY;
        let hashes = digests.bytes;
        let mut entries = [0u8; 256];
        self.gather(i - 1, b * ENTRY as u64, &mut entries[..size]);
        compare(&hashes[..size], &entries[..size], n)
    }

    // The first block of level i from `first` on, before end, whose entry does not match, else end.
    pub fn first_mismatch(self, i: u64, first: u64, end: u64) -> u64
        requires { (1 ≤ i) × (i ≤ 4) × (first ≤ end) × (end ≤ blocks (level_of self.view i)) }
        ensures { result ≡ first_not (matches self.entry.view self.entry.image.now i) first (end - first) }
    {
        let mut b = first;
        // A `while`: each turn goes on by as many blocks as were hashed.
        while b < end {
            let compared = self.compare_from(i, b, end);
            if compared.before < compared.hashed {
                return b + compared.before;
            }
            b += compared.hashed;
        }
        b
    }

    // How many blocks of level i from `first` on, before end, match their entries.
    pub fn count_matching(self, i: u64, first: u64, end: u64) -> u64
        requires { (1 ≤ i) × (i ≤ 4) × (first ≤ end) × (end ≤ blocks (level_of self.view i)) }
        ensures { result ≡ count_of (λ (j : ℕ). matches self.entry.view self.entry.image.now i (first + j)) (end - first) }
    {
        let mut count = 0;
        let mut b = first;
        // A `while`: each turn goes on by as many blocks as were hashed.
        while b < end {
            let compared = self.compare_from(i, b, end);
            count += compared.matching;
            b += compared.hashed;
        }
        count
    }

    // The entry of block b of level i, one level higher, matches.
    pub fn block_matches(self, i: u64, b: u64) -> bool
        requires { (1 ≤ i) × (i ≤ 4) × (b < blocks (level_of self.view i)) }
        ensures { result ≡ matches self.entry.view self.entry.image.now i b }
    {
        b < self.first_mismatch(i, b, b + 1)
    }
}
