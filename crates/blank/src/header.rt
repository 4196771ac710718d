// The header of either kind.
ghost use Rattle.std.specs.Prelude.{◌≡◌, ◌+◌, ◌≤◌, length};
ghost use Rattle.std.proofs.lemmas.List.Edits.{sets};
ghost use Rattle.blank.specs.Image.{disa_fields, diff_fields, header_with};

use super::fields::put_fields;
use super::sizes::partition_size;
use super::{PARTITION, PRIMARY, SECONDARY, TABLE};
use layout::Kind;
use number::runs::copy_into;

fn put_disa(target: &mut [u8], at: usize, n: u64)
    requires { (at + 0x6C ≤ length target.old) × (n ≤ 4096) }
    ensures { target.new ≡ sets target.old at (disa_fields n) }
{
    let size = partition_size(n);
    let fields = [
        1, SECONDARY, PRIMARY, TABLE, 0, TABLE, 0, 0, PARTITION, size, 0, 0,
    ];
    put_fields(target, at, b"DISA\x00\x00\x04\x00", &fields);
    copy_into(target, at + 0x68, &[0u8; 4]);
}

fn put_diff(target: &mut [u8], at: usize, n: u64)
    requires { (at + 0x34 ≤ length target.old) × (n ≤ 4096) }
    ensures { target.new ≡ sets target.old at (diff_fields n) }
{
    let size = partition_size(n);
    put_fields(
        target,
        at,
        b"DIFF\x00\x00\x03\x00",
        &[SECONDARY, PRIMARY, TABLE, PARTITION, size],
    );
    copy_into(target, at + 0x30, &[0u8; 4]);
}

// Stores the header with the table's hash.
pub fn put_header(target: &mut [u8], at: usize, kind: Kind, n: u64, hash: [u8; 32])
    requires { (at + 0x100 ≤ length target.old) × (n ≤ 4096) }
    ensures { target.new ≡ sets target.old at (header_with kind n hash) }
{
    match kind {
        Kind::Disa => {
            put_disa(target, at, n);
            copy_into(target, at + 0x6C, &hash);
            copy_into(target, at + 0x8C, &[0u8; 0x74]);
        }
        Kind::Diff => {
            put_diff(target, at, n);
            copy_into(target, at + 0x34, &hash);
            copy_into(target, at + 0x54, &[0u8; 0xAC]);
        }
    }
}
