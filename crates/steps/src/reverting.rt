// Whether an image may go back to the header before its last commit.
ghost use Rattle.std.specs.Prelude.{◌≡◌, ◌≤◌, length};
ghost use Rattle.steps.specs.Sessions.{revertible};

use layout::opening::open_under;
use layout::{FRONT, HEADER};
use number::runs::same_bytes;

// The present header is the one after the commit, and the image opens under the one before it.
pub fn is_revertible(image: &[u8], former: [u8; 256], later: [u8; 256]) -> bool
    requires { 0x200 ≤ length image.now }
    ensures { result ≡ revertible image.now former later }
{
    if !same_bytes(&image[HEADER..FRONT], &later) {
        return false;
    }
    // by `match`: `is_ok` takes a reference to a container, and tests/stores lets none be
    match open_under(image, &former) {
        Ok(_) => true,
        Err(_) => false,
    }
}
