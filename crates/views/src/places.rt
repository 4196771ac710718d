// A partition's DPFS and its two views, and what a session may store to. Partition 0 is A and 1 is B.
ghost use Rattle.std.specs.Prelude.{◌≡◌, ◌+◌, ◌^◌, ◌<◌};
ghost use Rattle.views.specs.Places.{slot_of, partition_of, shifted, tree_in, view_in, committed_view, staged_view, space_of};
ghost use Rattle.views.specs.Rules.{TreeFits, ViewFits, PlacesFit, SpaceFits};

use dpfs::{Space, Tree};
use ivfc::View;
use layout::tables::{active_range, inactive_range};
use layout::{Container, Partition, Slot};
use number::{Level, Range};

pub fn slot_of(c: Container, q: u64) -> Slot
    ensures { result ≡ slot_of c q }
{
    let a = c.header.a;
    let b = c.header.b;
    if q == 0 { a } else { b }
}

pub fn partition_of(c: Container, q: u64) -> Partition
    ensures { result ≡ partition_of c q }
{
    let a = c.a;
    if q == 0 {
        return a;
    }
    let second = c.b;
    match second {
        None => a,
        Some(b) => b,
    }
}

// A level of a partition's DPFS at its place in the image.
fn level_at(base: u64, l: Level) -> Level
    requires { base + l.offset < 2 ^ 64 }
    ensures { result ≡ shifted base l }
{
    Level {
        offset: base + l.offset,
        size: l.size,
        log: l.log,
    }
}

// The partition's DPFS. The live half of level 1 is the one that the selector names.
pub fn tree_in(slot: Slot, p: Partition) -> Tree
    requires { TreeFits slot p }
    ensures { result ≡ tree_in slot p }
{
    let base = slot.partition.offset;
    let level1 = Level {
        offset: base + p.dpfs.level1.offset,
        size: p.dpfs.level1.size,
        log: 0,
    };
    let level2 = level_at(base, p.dpfs.level2);
    let level3 = level_at(base, p.dpfs.level3);
    Tree {
        level1,
        level2,
        level3,
        live: p.difi.selector == 1,
    }
}

// The partition seen through a table's master hash and a half of level 1.
fn view_in(table: Range, slot: Slot, p: Partition, half: bool) -> View
    requires { ViewFits table slot p }
    ensures { result ≡ view_in table slot p half }
{
    let tree = tree_in(slot, p);
    let master = Range {
        offset: table.offset + slot.descriptor.offset + p.difi.master.offset,
        size: p.difi.master.size,
    };
    let level1 = p.ivfc.level1;
    let level2 = p.ivfc.level2;
    let level3 = p.ivfc.level3;
    let level4 = p.ivfc.level4;
    View {
        tree,
        half,
        master,
        level1,
        level2,
        level3,
        level4,
        external: p.difi.external,
        outside: slot.partition.offset + p.difi.outside,
    }
}

// The committed view goes by the active table and the live half.
pub fn committed_view(c: Container, q: u64) -> View
    requires { PlacesFit c q }
    ensures { result ≡ committed_view c q }
{
    let p = partition_of(c, q);
    view_in(
        active_range(c.header),
        slot_of(c, q),
        p,
        p.difi.selector == 1,
    )
}

// The staged view is what would be read if the inactive table were active: it goes by the inactive table and the other half.
pub fn staged_view(c: Container, q: u64) -> View
    requires { PlacesFit c q }
    ensures { result ≡ staged_view c q }
{
    let p = partition_of(c, q);
    view_in(
        inactive_range(c.header),
        slot_of(c, q),
        p,
        p.difi.selector != 1,
    )
}

// What a session may store to.
pub fn space_of(c: Container) -> Space
    requires { SpaceFits c }
    ensures { result ≡ space_of c }
{
    let table = inactive_range(c.header);
    let a = tree_in(slot_of(c, 0), partition_of(c, 0));
    let b = if c.header.count == 2 {
        Some(tree_in(slot_of(c, 1), partition_of(c, 1)))
    } else {
        None
    };
    Space { table, a, b }
}
