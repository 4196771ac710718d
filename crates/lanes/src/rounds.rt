// One block more of every lane (FIPS 180-4, 6.2.2). Each loop does the same at every place of its flat arrays, lanes and rounds alike.
ghost use Rattle.std.specs.Prelude.{◌≡◌, List, ℕ, ◌+◌, ◌<◌, length};
ghost use Rattle.std.specs.Int.Bits.{bit_xor};
ghost use Rattle.sha256.specs.Sha256 as Spec;
ghost use Rattle.lanes.specs.Flat.{Agree, Loaded, Spread, Scheduled, Changed, Reached, Folded, hash_of};

use sha256::block::{next_word, temp1};
use sha256::word::sum0;

// One more word of a schedule, sixteen words after place i.
fn schedule(words: &mut [u32; 512], i: usize)
    requires { (length words.old ≡ 512) × (i < 384) }
    ensures words_len { (length words.new ≡ 512) × (Agree words.old words.new (i + 128)) }
    ensures scheduled { Scheduled words.old i → Scheduled words.new (i + 1) }
{
    words[i + 128] = next_word(words[i + 112], words[i + 72], words[i + 8], words[i]);
}

// The differences that the first round of every lane finds in place.
fn differ(a: &[u32; 544], changes: &mut [u32; 544])
    requires { length changes.old ≡ 544 }
    ensures { (length changes.new ≡ 544) × (Changed a.now changes.new 8) }
{
    for i in 0..8 {
        changes[i + 16] = a[i + 16] ^ a[i + 8];
    }
}

// The second temporary word of a round, with Maj by differences: `change` is what differs between a and b, and `before` between b and c. What
// is `before` in a round was `change` in the round before it, and is kept: so each is computed once.
fn temp2(a: u32, b: u32, change: u32, before: u32) -> u32
    ensures { (c : ℕ) → change ≡ bit_xor a b → before ≡ bit_xor b c → result ≡ Spec.T₂ a b c }
{
    sum0(a).wrapping_add(b ^ (change & before))
}

// The round at place i. It makes two new words, an a and an e: its b, c, d and f, g, h are the a and the e of earlier rounds.
fn turn(
    constants: &[u32; 512],
    words: &[u32; 512],
    a: &mut [u32; 544],
    e: &mut [u32; 544],
    changes: &mut [u32; 544],
    i: usize,
)
    requires { i < 512 }
    ensures { (a₀ e₀ : List ℕ) → Reached constants.now words.now a₀ e₀ a.old e.old changes.old i → Reached constants.now words.now a₀ e₀ a.new e.new changes.new (i + 1) }
{
    let x = temp1(e[i + 24], e[i + 16], e[i + 8], e[i], constants[i], words[i]);
    let change = a[i + 24] ^ a[i + 16];
    let y = temp2(a[i + 24], a[i + 16], change, changes[i + 16]);
    let next_e = a[i].wrapping_add(x);
    let next_a = x.wrapping_add(y);
    changes[i + 24] = change;
    e[i + 32] = next_e;
    a[i + 32] = next_a;
}

// The rounds that have a word of the schedule to make: each is made just before a round, sixteen rounds before its own. A round waits for the
// one before it, and the schedule does not: so the processor has work meanwhile.
fn first_turns(
    constants: &[u32; 512],
    words: &mut [u32; 512],
    a: &mut [u32; 544],
    e: &mut [u32; 544],
    changes: &mut [u32; 544],
)
    requires { (length words.old ≡ 512) × (length a.old ≡ 544) × (length e.old ≡ 544) × (length changes.old ≡ 544) × (Changed a.old changes.old 8) }
    ensures words_len { (length words.new ≡ 512) × (Agree words.old words.new 128) × (Scheduled words.new 384) }
    ensures reached { Reached constants.now words.new a.old e.old a.new e.new changes.new 384 }
{
    for i in 0..384 {
        schedule(words, i);
        turn(constants, words, a, e, changes, i);
    }
}

// The rounds whose words are all made.
fn last_turns(
    constants: &[u32; 512],
    words: &[u32; 512],
    a: &mut [u32; 544],
    e: &mut [u32; 544],
    changes: &mut [u32; 544],
)
    ensures { (a₀ e₀ : List ℕ) → Reached constants.now words.now a₀ e₀ a.old e.old changes.old 384 → Reached constants.now words.now a₀ e₀ a.new e.new changes.new 512 }
{
    for i in 384..512 {
        turn(constants, words, a, e, changes, i);
    }
}

// Adds the last words that the rounds made to those that they began with.
fn fold(x: &mut [u32; 544])
    requires { length x.old ≡ 544 }
    ensures { (length x.new ≡ 544) × (Folded x.old x.new 32) }
{
    for i in 0..32 {
        x[i] = x[i + 512].wrapping_add(x[i]);
    }
}

// The hash value of every lane after one more block, whose words are the first sixteen of that lane. The hash values are the first words of a
// and e, where the rounds begin; what `changes` holds before does not matter.
pub fn compress(
    constants: &[u32; 512],
    words: &mut [u32; 512],
    a: &mut [u32; 544],
    e: &mut [u32; 544],
    changes: &mut [u32; 544],
)
    requires { (length words.old ≡ 512) × (length a.old ≡ 544) × (length e.old ≡ 544) × (length changes.old ≡ 544) × (Spread constants.now 512) }
    ensures words_len { (length words.new ≡ 512) × (length a.new ≡ 544) × (length e.new ≡ 544) × (length changes.new ≡ 544) }
    ensures by_index { (block : ℕ → List ℕ) → Loaded words.old block 128 → (l : ℕ) → l < 8 → hash_of a.new e.new l ≡ Spec.compress (hash_of a.old e.old l) (block l) }
{
    differ(a, changes);
    first_turns(constants, words, a, e, changes);
    last_turns(constants, words, a, e, changes);
    fold(a);
    fold(e);
}
