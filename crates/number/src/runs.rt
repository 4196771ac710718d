// Runs of bytes.
ghost use Rattle.std.specs.Prelude.{◌≡◌, ◌+◌, ◌≤◌, length};
ghost use Rattle.std.proofs.lemmas.List.Edits.{sets};
ghost use Rattle.number.specs.Bytes.{same_bytes};

// Two slices have the same bytes. There is no early exit, so that the compiler makes vectors of it. No `==`: it takes longer at some lengths
// (docs/PERFORMANCE.md), and tests/stores follows the image into each function that it is lent to.
pub fn same_bytes(a: &[u8], b: &[u8]) -> bool
    ensures { result ≡ same_bytes a.now b.now }
{
    if a.len() != b.len() {
        return false;
    }
    let mut same = true;
    for i in 0..a.len() {
        same = same & (a[i] == b[i]);
    }
    same
}

// Stores a run into a slice.
pub fn copy_into(target: &mut [u8], at: usize, run: &[u8])
    requires { at + length run.now ≤ length target.old }
    ensures { target.new ≡ sets target.old at run.now }
{
    // Byte by byte: what a commit stores of the header, each byte once, is read in these statements (tests/stores).
    for (k, value) in run.iter().enumerate() {
        target[at + k] = *value;
    }
}
