// The words of a block of every lane: of its message, or of the padding after it (FIPS 180-4, 5.1.1 and 5.2.1).
ghost use Rattle.std.specs.Prelude.{◌≡◌, ◌+◌, ◌*◌, ◌/◌, ◌%◌, ◌^◌, ◌<◌, ◌≤◌, length};
ghost use Rattle.sha256.specs.Sha256 as Spec;
ghost use Rattle.lanes.specs.Flat.{word_at, Loaded, lane_block};

fn word_at(bytes: &[u8], at: usize) -> u32
    requires { at + 3 < length bytes.now }
    ensures { result ≡ word_at bytes.now at }
{
    u32::from_be_bytes([bytes[at], bytes[at + 1], bytes[at + 2], bytes[at + 3]])
}

// A row of words, one of every lane: those of one place in block b of each message. So few that the compiler unrolls the loop.
fn load_row(messages: &[u8], n: usize, b: usize, row: usize, words: &mut [u32; 512])
    requires { (length messages.now ≡ 8 * n) × (n % 64 ≡ 0) × (n < 2 ^ 29) × (b < n / 64) × (row < 16) × (length words.old ≡ 512) }
    ensures words_len { length words.new ≡ 512 }
    ensures loaded { Loaded words.old (lane_block messages.now n b) (row * 8) → Loaded words.new (lane_block messages.now n b) (row * 8 + 8) }
{
    let at = b * 64 + row * 4;
    for lane in 0..8 {
        words[row * 8 + lane] = word_at(messages, lane * n + at);
    }
}

// The words of block b of every message.
fn load(messages: &[u8], n: usize, b: usize, words: &mut [u32; 512])
    requires { (length messages.now ≡ 8 * n) × (n % 64 ≡ 0) × (n < 2 ^ 29) × (b < n / 64) × (length words.old ≡ 512) }
    ensures { (length words.new ≡ 512) × (Loaded words.new (lane_block messages.now n b) 128) }
{
    for row in 0..16 {
        load_row(messages, n, b, row, words);
    }
}

// A word of the padding after a message of n bytes, whole blocks: a one bit, zeros, and the length in bits, which fits the last word.
fn padding_word(n: usize, i: usize) -> u32
    requires { (n % 64 ≡ 0) × (n < 2 ^ 29) × (i < 16) }
    ensures { result ≡ Spec.word (Spec.padding n) i }
{
    if i == 0 {
        0x8000_0000
    } else if i < 15 {
        0
    } else {
        (n * 8) as u32
    }
}

// The words of the block that the padding makes, the same in every lane.
fn pad(n: usize, words: &mut [u32; 512])
    requires { (n % 64 ≡ 0) × (n < 2 ^ 29) × (length words.old ≡ 512) }
    ensures { (length words.new ≡ 512) × (Loaded words.new (λ _. Spec.padding n) 128) }
{
    for i in 0..128 {
        words[i] = padding_word(n, i / 8);
    }
}

// The words of block b of every padded message.
pub fn fill(messages: &[u8], n: usize, b: usize, words: &mut [u32; 512])
    requires { (length messages.now ≡ 8 * n) × (n % 64 ≡ 0) × (n < 2 ^ 29) × (b ≤ n / 64) × (length words.old ≡ 512) }
    ensures { (length words.new ≡ 512) × (Loaded words.new (lane_block messages.now n b) 128) }
{
    if b < n / 64 {
        load(messages, n, b, words);
    } else {
        pad(n, words);
    }
}
