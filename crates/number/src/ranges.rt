// Rules on ranges, for any values of their fields: every rule is about whole numbers, so the code compares and subtracts and never
// forms a sum that might not fit.
ghost use Rattle.std.specs.Prelude.{◌≡◌, ◌*◌, ◌^◌, ◌<◌};
ghost use Rattle.number.specs.Ranges.{inside, apart, fits, clear, placed, twice, part};

use super::Range;

// The size bytes from offset on end by whole.
pub fn lies_inside(offset: u64, size: u64, whole: u64) -> bool
    ensures { result ≡ inside offset size whole }
{
    offset <= whole && size <= whole - offset
}

// One range ends before the other starts, or where it starts.
pub fn lie_apart(a: Range, b: Range) -> bool
    ensures { result ≡ apart a b }
{
    lies_inside(a.offset, a.size, b.offset) | lies_inside(b.offset, b.size, a.offset)
}

// The range has a byte, and lies in the whole.
pub fn fits_in(whole: u64, a: Range) -> bool
    ensures { result ≡ fits whole a }
{
    (1 <= a.size) & lies_inside(a.offset, a.size, whole)
}

// The range is apart from each of the others.
fn is_clear(a: Range, others: &[Range]) -> bool
    ensures { result ≡ clear a others.now }
{
    others.iter().all(|b| lie_apart(a, *b))
}

// The ranges fit in the whole, pairwise apart.
pub fn are_placed(whole: u64, ranges: &[Range]) -> bool
    ensures { result ≡ placed whole ranges.now }
{
    for (i, a) in ranges.iter().enumerate() {
        if !(fits_in(whole, *a) & is_clear(*a, &ranges[i + 1..])) {
            return false;
        }
    }
    true
}

// A pair of halves, of one half's size each, fits in the whole.
pub fn pair_fits(whole: u64, a: Range) -> bool
    ensures { result ≡ fits whole (twice a) }
{
    a.offset <= whole && (1 <= a.size) & (a.size <= (whole - a.offset) / 2)
}

// The range of a pair of halves, from that of the first.
pub fn pair_of(a: Range) -> Range
    requires { 2 * a.size < 2 ^ 64 }
    ensures { result ≡ twice a }
{
    Range {
        offset: a.offset,
        size: 2 * a.size,
    }
}

// The bytes of a range, as a part of the caller's own slice; as far as they are there.
pub fn part_of(s: &[u8], a: Range) -> &[u8]
    ensures { result.now ≡ part s.now a }
{
    let start = s.len().min(a.offset as usize);
    let size = (s.len() - start).min(a.size as usize);
    &s[start..start + size]
}
