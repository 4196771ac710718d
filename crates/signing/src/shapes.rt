// What each type of block is made of: a line for each.
ghost use Rattle.std.specs.Prelude.{◌≡◌};
ghost use Rattle.signing.specs.Blocks.{kind_of};
ghost use Rattle.signing.specs.Rules.{ShapeOf};

use super::{ExtdataFile, Field, Shape, Signer};
use layout::Kind;

// CTR-EXT0: after the extdata ID come 0 and zeros for Quota.dat, else 1 and the file's two IDs.
fn extdata_shape(id: u64, file: ExtdataFile) -> Shape
    ensures { ShapeOf (Signer.Extdata id file) result }
{
    let letters = *b"CTR-EXT0";
    let extdata = Field { size: 8, value: id };
    match file {
        ExtdataFile::Quota => {
            let zero = Field { size: 4, value: 0 };
            Shape {
                letters,
                fields: [Some(extdata), Some(zero), Some(zero), Some(zero)],
                hashed: false,
            }
        }
        ExtdataFile::Device(name, folder) => {
            let one = Field { size: 4, value: 1 };
            let n = name as u64;
            let own = Field { size: 4, value: n };
            let f = folder as u64;
            let above = Field { size: 4, value: f };
            Shape {
                letters,
                fields: [Some(extdata), Some(one), Some(own), Some(above)],
                hashed: false,
            }
        }
    }
}

// The shape of a signer's block.
pub fn shape_of(signer: Signer) -> Shape
    ensures { ShapeOf signer result }
{
    match signer {
        Signer::Card => Shape {
            letters: *b"CTR-NOR0",
            fields: [None; 4],
            hashed: true,
        },
        Signer::Title(id) => {
            let title = Field { size: 8, value: id };
            Shape {
                letters: *b"CTR-SIGN",
                fields: [Some(title), None, None, None],
                hashed: true,
            }
        }
        Signer::System(id) => {
            let n = id as u64;
            let save = Field { size: 8, value: n };
            Shape {
                letters: *b"CTR-SYS0",
                fields: [Some(save), None, None, None],
                hashed: false,
            }
        }
        Signer::Extdata(id, file) => extdata_shape(id, file),
        Signer::Database(id) => {
            let n = id as u64;
            let database = Field { size: 4, value: n };
            Shape {
                letters: *b"CTR-9DB0",
                fields: [Some(database), None, None, None],
                hashed: false,
            }
        }
    }
}

// The kind of image that a signer signs.
pub fn kind_of(signer: Signer) -> Kind
    ensures { result ≡ kind_of signer }
{
    match signer {
        Signer::Card | Signer::Title(_) | Signer::System(_) => Kind::Disa,
        Signer::Extdata(_, _) | Signer::Database(_) => Kind::Diff,
    }
}
