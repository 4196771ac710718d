// The public calls: how long a blank image is, and making one in a lent image. They ask nothing of their caller.
ghost use Rattle.std.specs.Prelude.{◌≡◌, length};
ghost use Rattle.layout.specs.Refusals.{Answers};
ghost use Rattle.steps.specs.Answers.{ending_says};
ghost use Rattle.blank.specs.Image.{zeros};
ghost use Rattle.blank.specs.Making.{blank_length, made};

use super::filling::fill;
use super::sizes::{blocks_allowed, image_size};
use layout::{Kind, Refusal};
use steps::Ending;

// How many bytes to lend for n blocks, and 0 if n is out of range.
pub fn blank_length(n: u64) -> u64
    ensures { result ≡ blank_length n }
{
    if blocks_allowed(n) { image_size(n) } else { 0 }
}

// Makes every byte zero.
fn clear(image: &mut [u8])
    ensures { image.new ≡ zeros (length image.old) }
{
    // Not the library's `fill`: tests/stores reads which functions store to an image.
    for byte in image.iter_mut() {
        *byte = 0;
    }
}

// Makes the lent image a blank one with n blocks in level 4. It is untouched if n is out of range or it is not just that long (20), and all
// zero if a digest would be (17).
pub fn make_blank(image: &mut [u8], kind: Kind, n: u64) -> Ending
    ensures { (Answers ending_says result (made image.old kind n).outcome) × (image.new ≡ (made image.old kind n).image) }
{
    if !blocks_allowed(n) {
        return Ending::Refused(Refusal::BlankSize);
    }
    if image.len() as u64 != image_size(n) {
        return Ending::Refused(Refusal::BlankSize);
    }
    clear(image);
    if fill(image, kind, n) {
        clear(image);
        Ending::Dropped
    } else {
        Ending::Accepted
    }
}
