// The two public calls. They ask nothing of their caller and only read the image.
ghost use Rattle.std.specs.Prelude.{◌≡◌};
ghost use Rattle.layout.specs.Refusals.{Answers, count_says};
ghost use Rattle.save.specs.Answers.{sought_says};
ghost use Rattle.save.specs.Calls.{list_names, find_file};

use super::viewing::{find_in, holds_save, list_view};
use ivfc::Reader;
use layout::Refusal;
use layout::opening::open;
use steps::answers::refusal_of;
use views::places::committed_view;

// Lists the folders and files of a save into the row, as far as it has room, and answers how many there are.
pub fn list_names(image: &[u8], row: &mut [u8]) -> Result<u64, Refusal>
    ensures answer { Answers count_says result (list_names image.now row.old).answer }
    ensures names { row.new ≡ (list_names image.now row.old).row }
{
    let answer = open(image);
    let Ok(c) = answer else {
        return Err(refusal_of(answer));
    };
    if !holds_save(c) {
        return Err(Refusal::NoSave);
    }
    let view = committed_view(c, 0);
    list_view(Reader { view, image }, row)
}

// The entry number of the file that has a name, of 16 bytes, in a folder.
pub fn find_file(image: &[u8], folder: u64, name: &[u8; 16]) -> Result<Option<u64>, Refusal>
    ensures { Answers sought_says result (find_file image.now folder name.now) }
{
    let answer = open(image);
    let Ok(c) = answer else {
        return Err(refusal_of(answer));
    };
    if !holds_save(c) {
        return Err(Refusal::NoSave);
    }
    let view = committed_view(c, 0);
    find_in(Reader { view, image }, folder, name)
}
