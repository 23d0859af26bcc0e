// The calls that fill a write list, on any bytes and any arguments: create, delete, resize, write, rename, a set of renames. The image is only read. Each has a form
// on the lent sectors before the data area and the count of the volume's sectors (T-11).
#![tactic(auto)]

ghost use Rattle.std.specs.Prelude.{◌≡◌, length};
ghost use Rattle.model.specs.Disk.{on_image};
ghost use Rattle.model.specs.Create.{create_answer, create_list};
ghost use Rattle.model.specs.Delete.{delete_answer, delete_list};
ghost use Rattle.model.specs.Resize.{resize_answer, resize_list};
ghost use Rattle.model.specs.Write.{write_answer, write_list};
ghost use Rattle.model.specs.Rename.{rename_answer, rename_list};
ghost use Rattle.model.specs.Results.{changed_in};
ghost use Rattle.model.specs.Lent.{write_lent, resize_lent, on_lent};
ghost use Rattle.model.specs.RenameSet.{rename_set_answer, rename_set_list};

use model::{Refusal, Writing};

pub fn create(
    img: &[u8],
    name: &[u8],
    id: u64,
    mode: u32,
    time: u64,
    list: &mut [u8],
) -> Result<u64, Refusal>
    ensures value { changed_in result ≡ on_image create_answer img.now name.now id mode time (length list.old) }
    ensures list_after { list.new ≡ on_image create_list img.now name.now id mode time list.old }
{
    soundness::judge(img)?;
    create::create_in(img, list, name, id, mode, time)
}

pub fn create_lent(
    front: &[u8],
    count: u64,
    name: &[u8],
    id: u64,
    mode: u32,
    time: u64,
    list: &mut [u8],
) -> Result<u64, Refusal>
    ensures value { changed_in result ≡ on_lent create_answer front.now count name.now id mode time (length list.old) }
    ensures list_after { list.new ≡ on_lent create_list front.now count name.now id mode time list.old }
{
    soundness::judge_lent(front, count)?;
    create::create_in(front, list, name, id, mode, time)
}

pub fn delete(img: &[u8], name: &[u8], time: u64, list: &mut [u8]) -> Result<u64, Refusal>
    ensures value { changed_in result ≡ on_image delete_answer img.now name.now time (length list.old) }
    ensures list_after { list.new ≡ on_image delete_list img.now name.now time list.old }
{
    soundness::judge(img)?;
    delete::delete_in(img, name, time, list)
}

pub fn delete_lent(
    front: &[u8],
    count: u64,
    name: &[u8],
    time: u64,
    list: &mut [u8],
) -> Result<u64, Refusal>
    ensures value { changed_in result ≡ on_lent delete_answer front.now count name.now time (length list.old) }
    ensures list_after { list.new ≡ on_lent delete_list front.now count name.now time list.old }
{
    soundness::judge_lent(front, count)?;
    delete::delete_in(front, name, time, list)
}

pub fn resize(
    img: &[u8],
    name: &[u8],
    size: u64,
    time: u64,
    list: &mut [u8],
) -> Result<u64, Refusal>
    ensures value { changed_in result ≡ on_image resize_answer img.now name.now size time (length list.old) }
    ensures list_after { list.new ≡ on_image resize_list img.now name.now size time list.old }
{
    soundness::judge(img)?;
    write::resize_in(img, name, size, time, list)
}

pub fn resize_lent(
    front: &[u8],
    count: u64,
    name: &[u8],
    size: u64,
    time: u64,
    list: &mut [u8],
) -> Writing
    ensures value { result ≡ on_lent resize_lent front.now count name.now size time (length list.old) }
    ensures list_after { list.new ≡ on_lent resize_list front.now count name.now size time list.old }
{
    match soundness::judge_lent(front, count) {
        Ok(()) => write::resize_lent_in(front, name, size, time, list),
        Err(refusal) => write::refused_writing(refusal),
    }
}

pub fn write(
    img: &[u8],
    name: &[u8],
    offset: u64,
    bytes: &[u8],
    time: u64,
    list: &mut [u8],
) -> Result<u64, Refusal>
    ensures value { changed_in result ≡ on_image write_answer img.now name.now offset bytes.now time (length list.old) }
    ensures list_after { list.new ≡ on_image write_list img.now name.now offset bytes.now time list.old }
{
    soundness::judge(img)?;
    write::write_in(img, name, offset, bytes, time, list)
}

pub fn write_lent(
    front: &[u8],
    count: u64,
    name: &[u8],
    offset: u64,
    bytes: &[u8],
    time: u64,
    list: &mut [u8],
) -> Writing
    ensures value { result ≡ on_lent write_lent front.now count name.now offset bytes.now time (length list.old) }
    ensures list_after { list.new ≡ on_lent write_list front.now count name.now offset bytes.now time list.old }
{
    match soundness::judge_lent(front, count) {
        Ok(()) => write::write_lent_in(front, name, offset, bytes, time, list),
        Err(refusal) => write::refused_writing(refusal),
    }
}

pub fn rename(
    img: &[u8],
    old: &[u8],
    new: &[u8],
    time: u64,
    list: &mut [u8],
) -> Result<u64, Refusal>
    ensures value { changed_in result ≡ on_image rename_answer img.now old.now new.now time (length list.old) }
    ensures list_after { list.new ≡ on_image rename_list img.now old.now new.now time list.old }
{
    soundness::judge(img)?;
    rename::rename_in(img, old, new, time, list)
}

pub fn rename_lent(
    front: &[u8],
    count: u64,
    old: &[u8],
    new: &[u8],
    time: u64,
    list: &mut [u8],
) -> Result<u64, Refusal>
    ensures value { changed_in result ≡ on_lent rename_answer front.now count old.now new.now time (length list.old) }
    ensures list_after { list.new ≡ on_lent rename_list front.now count old.now new.now time list.old }
{
    soundness::judge_lent(front, count)?;
    rename::rename_in(front, old, new, time, list)
}

pub fn rename_set(
    img: &[u8],
    names: &[u8],
    lengths: &[u64],
    time: u64,
    list: &mut [u8],
) -> Result<u64, Refusal>
    ensures value { changed_in result ≡ on_image rename_set_answer img.now names.now lengths.now time (length list.old) }
    ensures list_after { list.new ≡ on_image rename_set_list img.now names.now lengths.now time list.old }
{
    soundness::judge(img)?;
    rename_set::rename_set_in(img, names, lengths, time, list)
}

pub fn rename_set_lent(
    front: &[u8],
    count: u64,
    names: &[u8],
    lengths: &[u64],
    time: u64,
    list: &mut [u8],
) -> Result<u64, Refusal>
    ensures value { changed_in result ≡ on_lent rename_set_answer front.now count names.now lengths.now time (length list.old) }
    ensures list_after { list.new ≡ on_lent rename_set_list front.now count names.now lengths.now time list.old }
{
    soundness::judge_lent(front, count)?;
    rename_set::rename_set_in(front, names, lengths, time, list)
}
