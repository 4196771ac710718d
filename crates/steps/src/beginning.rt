// Begin's stores: the inactive table, and each partition's other half of level 1.
ghost use Rattle.std.specs.Prelude.{◌≡◌, ◌+◌, ◌-◌, ◌<◌, set, Ok};
ghost use Rattle.layout.specs.Tables.{inactive};
ghost use Rattle.layout.specs.Opening.{opened};
ghost use Rattle.views.specs.Places.{partitions, slot_of, partition_of, space_of};
ghost use Rattle.steps.specs.Sessions.{selector_place, table_begun, begun_image};

use super::staleness::SELECTOR;
use dpfs::Space;
use layout::Container;
use layout::tables::{active_range, inactive_range};
use stores::staging::{begin_tree, copy_within, store};
use views::places::{partition_of, slot_of};

// Stores a partition's selector, flipped, into the inactive table.
fn flip_selector(space: Space, c: Container, q: u64, image: &mut [u8])
    requires { (space ≡ space_of c) × (opened image.old ≡ Ok c) × (q < partitions c) }
    ensures { image.new ≡ set image.old ((inactive c.header).offset + selector_place (slot_of c q)) (1 - (partition_of c q).difi.selector) }
{
    let place = inactive_range(c.header).offset + (slot_of(c, q).descriptor.offset + SELECTOR);
    store(space, image, place, 1 - partition_of(c, q).difi.selector);
}

// The inactive table becomes the active one with each partition's selector flipped.
fn stage_table(space: Space, c: Container, image: &mut [u8])
    requires { (space ≡ space_of c) × (opened image.old ≡ Ok c) }
    ensures { image.new ≡ table_begun c image.old }
{
    let from = active_range(c.header);
    let to = inactive_range(c.header);
    copy_within(space, image, from.offset, to.offset, to.size);
    flip_selector(space, c, 0, image);
    if c.header.count == 2 {
        flip_selector(space, c, 1, image);
    }
}

// And each partition's other half of level 1 becomes a copy of the live half.
pub fn stage_image(space: Space, c: Container, image: &mut [u8])
    requires { (space ≡ space_of c) × (opened image.old ≡ Ok c) }
    ensures { image.new ≡ begun_image c image.old }
{
    stage_table(space, c, image);
    begin_tree(space, space.a, image);
    if let Some(b) = space.b {
        begin_tree(space, b, image);
    }
}
