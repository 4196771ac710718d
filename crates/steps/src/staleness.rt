// Whether an image is still the one that a session began on, as refusal 14 asks.
ghost use Rattle.std.specs.Prelude.{◌≡◌, ◌||◌, ℕ, ◌+◌, ◌-◌, ◌≤◌, eqb, length, get_or};
ghost use Rattle.layout.specs.Guarantees.{Guarantees};
ghost use Rattle.steps.specs.Rules.{HoldsMarks};
ghost use Rattle.steps.specs.Sessions.{selector_flipped, in_master, all_below, table_staged, current};

use super::Session;
use layout::tables::{active_range, inactive_range};
use layout::{Container, FRONT, HEADER};
use number::fields::byte;
use number::ranges::part_of;
use number::runs::same_bytes;
use views::places::{partition_of, slot_of};

// Where the selector stands in a descriptor.
pub const SELECTOR: u64 = layout::SELECTOR as u64;

// The places of a table from `start` to `end` have the same bytes in both.
fn run_same(active: &[u8], inactive: &[u8], start: u64, end: u64) -> bool
    requires { (start ≤ end) × (end ≤ length active.now) × (length inactive.now ≡ length active.now) }
    ensures { result ≡ all_below (end - start) (λ (k : ℕ). eqb (get_or inactive.now (start + k) 0) (get_or active.now (start + k) 0)) }
{
    let from = start as usize;
    let to = end as usize;
    same_bytes(&inactive[from..to], &active[from..to])
}

// The places from `start` to `end`, where partition q's selector stands and then its master hash: but for these two a run is the same.
fn partition_staged(
    active: &[u8],
    inactive: &[u8],
    c: Container,
    q: u64,
    start: u64,
    end: u64,
) -> bool
    requires { (HoldsMarks c q start end) × (end ≤ length active.now) × (length inactive.now ≡ length active.now) }
    ensures { result ≡ all_below (end - start) (λ (k : ℕ). in_master c q (start + k) || eqb (get_or inactive.now (start + k) 0) (get_or (selector_flipped c q active.now) (start + k) 0)) }
{
    let descriptor = slot_of(c, q).descriptor.offset;
    let difi = partition_of(c, q).difi;
    let selector = descriptor + SELECTOR;
    let master = descriptor + difi.master.offset;
    let end_of_master = master + difi.master.size;
    run_same(active, inactive, start, selector)
        & (byte(inactive, selector as usize) == 1 - difi.selector)
        & run_same(active, inactive, selector + 1, master)
        & run_same(active, inactive, end_of_master, end)
}

// The inactive table is the active one with selectors flipped and any master hashes. Two descriptors lie one behind the other, so the table is cut where
// the second one starts.
fn table_staged(image: &[u8], c: Container) -> bool
    requires { Guarantees image.now c }
    ensures { result ≡ table_staged c image.now }
{
    let active = part_of(image, active_range(c.header));
    let inactive = part_of(image, inactive_range(c.header));
    let n = inactive_range(c.header).size;
    if c.header.count != 2 {
        return partition_staged(active, inactive, c, 0, 0, n);
    }
    let a = c.header.a.descriptor.offset;
    let b = c.header.b.descriptor.offset;
    if a < b {
        partition_staged(active, inactive, c, 0, 0, b)
            & partition_staged(active, inactive, c, 1, b, n)
    } else {
        partition_staged(active, inactive, c, 1, 0, a)
            & partition_staged(active, inactive, c, 0, a, n)
    }
}

// The header is the remembered one too.
pub fn is_current(image: &[u8], c: Container, session: Session) -> bool
    requires { Guarantees image.now c }
    ensures { result ≡ current c image.now session }
{
    same_bytes(&image[HEADER..FRONT], &session.header) && table_staged(image, c)
}
