// What a commit, and a revert, stores: the header, whole, and with it the signature where it is signed.
#![tactic(auto)]

ghost use Rattle.std.specs.Prelude.{◌≡◌, ◌≤◌, length};
ghost use Rattle.layout.specs.Headers.{header_bytes};
ghost use Rattle.layout.specs.Guarantees.{Guarantees};
ghost use Rattle.commits.specs.Committing.{stored_header, stored_signed, header_committed, committed_image, committed_signed};

use layout::headers::header_of;
use layout::tables::{flag_offset, hash_range, inactive_range};
use layout::{Container, HEADER};
use number::ranges::part_of;
use number::runs::copy_into;
use sha256::digest;
use signatures::sign;
use signing::Signer;

// The former header with the flag flipped and the hash of the staged table.
fn next_header(former: [u8; 256], image: &[u8], c: Container) -> [u8; 256]
    requires { (Guarantees image.now c) × (former ≡ header_bytes image.now) }
    ensures { result ≡ header_committed c image.now }
{
    let h = c.header;
    let kind = h.kind;
    let mut header = former;
    let at = flag_offset(kind);
    header[at] = (1 - h.flag) as u8;
    let hash = digest(part_of(image, inactive_range(h)));
    copy_into(&mut header, hash_range(kind).offset as usize, &hash);
    header
}

// The one store of a commit, and of a revert: a header, whole.
pub fn store_header(image: &mut [u8], header: [u8; 256])
    requires { 0x200 ≤ length image.old }
    ensures { image.new ≡ stored_header image.old header }
{
    copy_into(image, HEADER, &header);
}

// The one store of a signed commit, and of a signed revert: a header's signature, and the header, whole. The bytes between them are left alone.
pub fn store_signed(image: &mut [u8], header: [u8; 256], key: [u8; 16], signer: Signer)
    requires { 0x200 ≤ length image.old }
    ensures { image.new ≡ stored_signed image.old key signer header }
{
    let signature = sign(key, signer, &header);
    copy_into(image, 0, &signature);
    copy_into(image, HEADER, &header);
}

// Makes what is staged the committed one.
pub fn switch_tables(image: &mut [u8], c: Container)
    requires { Guarantees image.old c }
    ensures { image.new ≡ committed_image c image.old }
{
    let former = header_of(image);
    let next = next_header(former, image, c);
    store_header(image, next);
}

// The same with the signature of the new header.
pub fn switch_signed(image: &mut [u8], c: Container, key: [u8; 16], signer: Signer)
    requires { Guarantees image.old c }
    ensures { image.new ≡ committed_signed c image.old key signer }
{
    let former = header_of(image);
    let next = next_header(former, image, c);
    store_signed(image, next, key, signer);
}
