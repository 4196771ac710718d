// Building a block: its letters, its fields one after the other, then its tail.
ghost use Rattle.std.specs.Prelude.{◌≡◌, ◌++◌, ◌+◌, ◌-◌, ◌≤◌, length, replicate};
ghost use Rattle.std.proofs.lemmas.List.Edits.{sets};
ghost use Rattle.number.specs.Fields.{field_bytes};
ghost use Rattle.sha256.specs.Sha256.{sha256};
ghost use Rattle.signing.specs.Rules.{somes};
ghost use Rattle.signing.specs.Placing.{Placing};
ghost use Rattle.signing.specs.Blocks.{laid_out, inner_block, tail_of, signing_block};

use super::shapes::shape_of;
use super::{Field, Shape, Signer};
use number::runs::copy_into;
use sha256::digest;

// Stores a field at a place, its least significant byte first.
pub fn put_field(block: &mut [u8], at: usize, size: u64, value: u64)
    requires { at + size ≤ length block.old }
    ensures { block.new ≡ sets block.old at (field_bytes size value) }
{
    let mut rest = value;
    // By index: a blank image is stored to here, and tests/stores knows each function that does.
    for k in 0..size as usize {
        block[at + k] = (rest % 0x100) as u8;
        rest /= 0x100;
    }
}

// Stores fields one after the other from a place on, and says where they end.
fn put_fields(block: &mut [u8], at: usize, fields: &[Option<Field>]) -> usize
    requires { at + length (laid_out (somes fields.now)) ≤ length block.old }
    ensures { (block.new ≡ sets block.old at (laid_out (somes fields.now))) × (result ≡ at + length (laid_out (somes fields.now))) }
{
    let mut end = at;
    for slot in fields {
        if let Some(field) = *slot {
            put_field(block, end, field.size, field.value);
            end += field.size as usize;
        }
    }
    end
}

// The SHA-256 of the inner block.
fn inner_digest(header: &[u8; 256]) -> [u8; 32]
    ensures { result ≡ sha256 (inner_block header.now) }
{
    let mut inner = [0u8; 264];
    copy_into(&mut inner, 0, b"CTR-SAV0");
    copy_into(&mut inner, 8, header);
    digest(&inner)
}

// Stores the tail at a place, and says where it ends.
fn put_tail(block: &mut [u8], at: usize, hashed: bool, header: &[u8; 256]) -> usize
    requires { at + 256 ≤ length block.old }
    ensures { (block.new ≡ sets block.old at (tail_of hashed header.now)) × (result ≡ at + length (tail_of hashed header.now)) × (result ≤ at + 256) }
{
    if hashed {
        let hash = inner_digest(header);
        copy_into(block, at, &hash);
        return at + 32;
    }
    copy_into(block, at, header);
    at + 256
}

// Stores the block that a signer signs of a header, with zeros after it, and says how long it is.
pub fn build(signer: Signer, header: &[u8; 256], block: &mut [u8; 284]) -> usize
    ensures { (block.new ≡ signing_block signer header.now ++ replicate (284 - length (signing_block signer header.now)) 0) × (result ≡ length (signing_block signer header.now)) × (result ≤ 284) }
{
    let Shape {
        letters,
        fields,
        hashed,
    } = shape_of(signer);
    *block = [0u8; 284];
    copy_into(block, 0, &letters);
    let at = put_fields(block, 8, &fields);
    put_tail(block, at, hashed, header)
}

// Its SHA-256, which is what is signed.
pub fn block_digest(signer: Signer, header: &[u8; 256]) -> [u8; 32]
    ensures { result ≡ sha256 (signing_block signer header.now) }
{
    let mut block = [0u8; 284];
    let length = build(signer, header, &mut block);
    digest(&block[..length])
}

// The placing of fields is one law for all blocks: the check asks for it by its statement.
pub fn placing()
    ensures { Placing }
{}
