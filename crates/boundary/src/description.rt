// What an accepted opening hands out, as 80 numbers: 8 for the header and 36 for each partition.
ghost use Rattle.std.specs.Prelude.{◌≡◌, ◌++◌, ◌+◌, ◌≤◌, length};
ghost use Rattle.std.proofs.lemmas.List.Edits.{sets};
ghost use Rattle.boundary.specs.Boundary.{kind_number, header_numbers, piece_numbers, levels_numbers, partition_numbers, second_numbers, description, description_left};

use layout::{Container, Difi, Dpfs, Header, Ivfc, Kind, Partition, Refusal, Slot};

// The C interface has a kind as a number.
fn kind_number(kind: Kind) -> u64
    ensures { result ≡ kind_number kind }
{
    match kind {
        Kind::Disa => 0,
        Kind::Diff => 1,
    }
}

// The last one is unused.
fn header_numbers(h: Header) -> [u64; 8]
    ensures { result ≡ header_numbers h }
{
    let kind = h.kind;
    [
        kind_number(kind),
        h.count as u64,
        h.flag as u64,
        h.secondary.offset,
        h.secondary.size,
        h.primary.offset,
        h.primary.size,
        0,
    ]
}

// Where a descriptor and its partition are, and what DIFI says.
fn piece_numbers(slot: Slot, difi: Difi) -> [u64; 13]
    ensures { result ≡ piece_numbers slot difi }
{
    [
        slot.descriptor.offset,
        slot.descriptor.size,
        slot.partition.offset,
        slot.partition.size,
        difi.ivfc.offset,
        difi.ivfc.size,
        difi.dpfs.offset,
        difi.dpfs.size,
        difi.master.offset,
        difi.master.size,
        difi.external as u64,
        difi.selector as u64,
        difi.outside,
    ]
}

// The levels; the last three are unused.
fn levels_numbers(ivfc: Ivfc, dpfs: Dpfs) -> [u64; 23]
    ensures { result ≡ levels_numbers ivfc dpfs }
{
    [
        ivfc.level1.offset,
        ivfc.level1.size,
        ivfc.level1.log,
        ivfc.level2.offset,
        ivfc.level2.size,
        ivfc.level2.log,
        ivfc.level3.offset,
        ivfc.level3.size,
        ivfc.level3.log,
        ivfc.level4.offset,
        ivfc.level4.size,
        ivfc.level4.log,
        dpfs.level1.offset,
        dpfs.level1.size,
        dpfs.level2.offset,
        dpfs.level2.size,
        dpfs.level2.log,
        dpfs.level3.offset,
        dpfs.level3.size,
        dpfs.level3.log,
        0,
        0,
        0,
    ]
}

// Stores a run of numbers into an array.
fn put_numbers(target: &mut [u64], at: usize, run: &[u64])
    requires { at + length run.now ≤ length target.old }
    ensures { target.new ≡ sets target.old at run.now }
{
    target[at..at + run.len()].copy_from_slice(run);
}

fn join_partition(pieces: [u64; 13], levels: [u64; 23]) -> [u64; 36]
    ensures { result ≡ pieces ++ levels }
{
    let mut all = [0; 36];
    put_numbers(&mut all, 0, &pieces);
    put_numbers(&mut all, 13, &levels);
    all
}

fn partition_numbers(slot: Slot, p: Partition) -> [u64; 36]
    ensures { result ≡ partition_numbers slot p }
{
    let difi = p.difi;
    let ivfc = p.ivfc;
    let dpfs = p.dpfs;
    join_partition(piece_numbers(slot, difi), levels_numbers(ivfc, dpfs))
}

// All 0 where there is no B.
fn second_numbers(slot: Slot, second: Option<Partition>) -> [u64; 36]
    ensures { result ≡ second_numbers slot second }
{
    match second {
        None => [0; 36],
        Some(p) => partition_numbers(slot, p),
    }
}

fn join_container(header: [u64; 8], a: [u64; 36], b: [u64; 36]) -> [u64; 80]
    ensures { result ≡ header ++ a ++ b }
{
    let mut all = [0; 80];
    put_numbers(&mut all, 0, &header);
    put_numbers(&mut all, 8, &a);
    put_numbers(&mut all, 44, &b);
    all
}

fn numbers_of(c: Container) -> [u64; 80]
    ensures { result ≡ description c }
{
    let h = c.header;
    let a = c.a;
    let b = c.b;
    join_container(
        header_numbers(h),
        partition_numbers(h.a, a),
        second_numbers(h.b, b),
    )
}

// The numbers after an opening: an image that does not open leaves them alone.
pub fn description_left(answer: Result<Container, Refusal>, before: [u64; 80]) -> [u64; 80]
    ensures { result ≡ description_left answer before }
{
    match answer {
        Ok(c) => numbers_of(c),
        Err(_) => before,
    }
}
