// What signs an image, as its caller says it: four numbers, the type's modulo 6, an ID, and for a device file the IDs of its name and folder.
ghost use Rattle.std.specs.Prelude.{◌≡◌};
ghost use Rattle.boundary.specs.Signers.{signer_as, signer_of};

use signing::{ExtdataFile, Signer};

// By numbers, since the C interface lends numbers; any four of them are a signer.
fn signer_as(kind: u64, id: u64, file: u64, folder: u64) -> Signer
    ensures { result ≡ signer_as kind id file folder }
{
    let word = (id % 0x1_0000_0000) as u32;
    match kind {
        0 => Signer::Card,
        1 => Signer::Title(id),
        2 => Signer::System(word),
        3 => Signer::Extdata(id, ExtdataFile::Quota),
        4 => {
            let own = (file % 0x1_0000_0000) as u32;
            let above = (folder % 0x1_0000_0000) as u32;
            Signer::Extdata(id, ExtdataFile::Device(own, above))
        }
        _ => Signer::Database(word),
    }
}

// The signer that the numbers are.
pub fn signer_of(numbers: [u64; 4]) -> Signer
    ensures { result ≡ signer_of numbers }
{
    signer_as(numbers[0] % 6, numbers[1], numbers[2], numbers[3])
}
