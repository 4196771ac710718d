// The table: DIFI, IVFC, DPFS and the master hash.
ghost use Rattle.std.specs.Prelude.{◌≡◌, ◌++◌, ◌+◌, ◌≤◌, length};
ghost use Rattle.std.proofs.lemmas.List.Edits.{sets};
ghost use Rattle.blank.specs.Image.{difi, ivfc, dpfs, pieces};

use super::fields::put_fields;
use super::sizes::{
    dpfs1_size, dpfs2_place, dpfs2_size, dpfs3_place, dpfs3_size, hash1, hash2, hash3, level4_place,
};
use number::runs::copy_into;

fn put_difi(target: &mut [u8], at: usize)
    requires { at + 0x44 ≤ length target.old }
    ensures { target.new ≡ sets target.old at difi }
{
    put_fields(
        target,
        at,
        b"DIFI\x00\x00\x01\x00",
        &[0x44, 0x78, 0xBC, 0x50, 0x10C, 0x20],
    );
    copy_into(target, at + 0x38, &[0u8; 12]);
}

fn put_ivfc(target: &mut [u8], at: usize, n: u64)
    requires { (at + 0x78 ≤ length target.old) × (n ≤ 4096) }
    ensures { target.new ≡ sets target.old at (ivfc n) }
{
    let a = hash1(n);
    let b = hash2(n);
    let c = hash3(n);
    let d = level4_place(n);
    let e = 0x1000 * n;
    let fields = [0x20, 0, a, 9, a, b, 9, a + b, c, 12, d, e, 12, 0x78];
    put_fields(target, at, b"IVFC\x00\x00\x02\x00", &fields);
}

fn put_dpfs(target: &mut [u8], at: usize, n: u64)
    requires { (at + 0x50 ≤ length target.old) × (n ≤ 4096) }
    ensures { target.new ≡ sets target.old at (dpfs n) }
{
    let a = dpfs1_size(n);
    let b = dpfs2_place(n);
    let c = dpfs2_size(n);
    let d = dpfs3_place(n);
    let e = dpfs3_size(n);
    let fields = [0, a, 0, b, c, 7, d, e, 12];
    put_fields(target, at, b"DPFS\x00\x00\x01\x00", &fields);
}

// Stores the descriptor with its master hash.
pub fn put_table(target: &mut [u8], at: usize, n: u64, master: [u8; 32])
    requires { (at + 0x12C ≤ length target.old) × (n ≤ 4096) }
    ensures { target.new ≡ sets target.old at (pieces n ++ master) }
{
    put_difi(target, at);
    put_ivfc(target, at + 0x44, n);
    put_dpfs(target, at + 0xBC, n);
    copy_into(target, at + 0x10C, &master);
}
