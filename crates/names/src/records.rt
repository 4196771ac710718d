// Records of the lent row.
ghost use Rattle.std.specs.Prelude.{◌≡◌, ◌++◌, ◌/◌, ◌<◌, ltb, length};
ghost use Rattle.names.specs.Records.{head, put_record};

use number::runs::copy_into;

const RECORD: usize = 24;

// The kind of a record. Numbers, since the C interface hands out records as bytes, and `put_record` takes any.
pub const FOLDER: u8 = 0;

pub const FILE: u8 = 1;

// The row has room for record i.
pub fn has_room(row: &[u8], i: u64) -> bool
    ensures { result ≡ ltb i (length row.now / 24) }
{
    (i as usize) < row.len() / RECORD
}

// Puts record i into the row, which has room for it: kind, entry number, and the 16 name bytes.
pub fn put_record(row: &mut [u8], i: u64, kind: u8, e: u64, name: &[u8])
    requires { (i < length row.old / 24) × (length name.now ≡ 16) }
    ensures { row.new ≡ put_record row.old i (head kind e ++ name.now) }
{
    let at = RECORD * i as usize;
    let number = (e % 0x1_0000_0000) as u32;
    copy_into(row, at, &(kind as u32).to_le_bytes());
    copy_into(row, at + 4, &number.to_le_bytes());
    copy_into(row, at + 8, name);
}
