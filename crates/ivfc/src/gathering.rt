// The bytes of a level, run by run: never one byte at a time through the selection.
ghost use Rattle.std.specs.Prelude.{◌≡◌, ◌+◌, ◌-◌, ◌≤◌, ◌<◌, length};
ghost use Rattle.number.specs.Bytes.{bytes};
ghost use Rattle.ivfc.specs.Views.{level_of, content_of};

use super::{Reader, View};
use dpfs::Selection;
use number::ranges::part_of;
use number::runs::copy_into;
use number::{Level, Range};

// Level i of a view; level 0 is the master hash.
pub fn level_of(view: View, i: u64) -> Level
    ensures { result ≡ level_of view i }
{
    match i {
        0 => Level {
            offset: 0,
            size: view.master.size,
            log: 5,
        },
        1 => view.level1,
        2 => view.level2,
        3 => view.level3,
        _ => view.level4,
    }
}

impl<'a> Reader<'a> {
    // The bytes of level i from x on that stand in one piece of the image, no further than end.
    pub fn run_of(self, i: u64, x: u64, end: u64) -> &'a [u8]
        requires { (i ≤ 4) × (x < end) × (end ≤ (level_of self.view i).size) }
        ensures { (result.now ≡ bytes (content_of self.entry.view self.entry.image.now i) x (length result.now)) × (0 < length result.now) × (length result.now ≤ end - x) }
    {
        let view = self.view;
        let image = self.image;
        match i {
            0 => part_of(
                image,
                Range {
                    offset: view.master.offset + x,
                    size: end - x,
                },
            ),
            4 if view.external => part_of(
                image,
                Range {
                    offset: view.outside + x,
                    size: end - x,
                },
            ),
            _ => {
                let start = level_of(view, i).offset;
                let selection = Selection {
                    tree: view.tree,
                    image,
                    half: view.half,
                };
                selection.run(start + x, start + end)
            }
        }
    }

    // Fills a buffer with the bytes of level i from x on.
    pub fn gather(self, i: u64, x: u64, buffer: &mut [u8])
        requires { (i ≤ 4) × (x + length buffer.old ≤ (level_of self.view i).size) }
        ensures { buffer.new ≡ bytes (content_of self.entry.view self.entry.image.now i) x (length buffer.old) }
    {
        let n = buffer.len();
        let mut done = 0;
        // A `while`: each turn goes on by as many bytes as stand in one piece.
        while done < n {
            let piece = self.run_of(i, x + done as u64, x + n as u64);
            copy_into(buffer, done, piece);
            done += piece.len();
        }
    }
}
