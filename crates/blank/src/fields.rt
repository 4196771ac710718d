// Stores of opening bytes and numbers. A number has eight bytes here; it is stored by the writer of signed blocks, of which there is one.
ghost use Rattle.std.specs.Prelude.{◌≡◌, ◌++◌, ◌+◌, ◌*◌, ◌≤◌, length};
ghost use Rattle.std.proofs.lemmas.List.Edits.{sets};
ghost use Rattle.blank.specs.Fields.{eights};

use number::runs::copy_into;
use signing::blocks::put_field;

// Stores numbers one after another.
fn put_numbers(target: &mut [u8], at: usize, numbers: &[u64])
    requires { at + 8 * length numbers.now ≤ length target.old }
    ensures { target.new ≡ sets target.old at (eights numbers.now) }
{
    for (k, x) in numbers.iter().enumerate() {
        put_field(target, at + 8 * k, 8, *x);
    }
}

// Stores eight opening bytes, and the numbers after them.
pub fn put_fields(target: &mut [u8], at: usize, magic: &[u8], numbers: &[u64])
    requires { (at + 8 + 8 * length numbers.now ≤ length target.old) × (length magic.now ≡ 8) }
    ensures { target.new ≡ sets target.old at (magic.now ++ eights numbers.now) }
{
    copy_into(target, at, magic);
    put_numbers(target, at + 8, numbers);
}
