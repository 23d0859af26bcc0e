// Delete: a file's entry and the table sectors that hold its extents, rewritten.
#![tactic(auto)]

ghost use Rattle.std.specs.Prelude.{◌≡◌, ◌+◌, ◌*◌, ◌≤◌, ◌<◌, length};
ghost use Rattle.std.proofs.Math.Option.{some};
ghost use Rattle.model.specs.Disk.{view};
ghost use Rattle.model.specs.Table.{free_file, sectors_holding};
ghost use Rattle.model.specs.WriteList.{record_size, record_count, groups_for, closed, Emitted};
ghost use Rattle.model.specs.Delete.{delete_answer, delete_list};
ghost use Rattle.model.specs.Results.{changed_in};
ghost use Rattle.model.specs.Opened.{Opened, in_volume, Accepted};
ghost use Rattle.commit.specs.Commit.{StagesOf};
ghost use Rattle.table.specs.Owned.{owned_in};
ghost use Rattle.delete.specs.Deleting.{plan_for, DeletesTo};

use model::{FileIndex, Geometry, Refusal, Sector};

// The whole list that deletes file i; the list has room for it.
fn put_delete(
    img: &[u8],
    g: Geometry,
    stages: &[u64],
    i: FileIndex,
    time: u64,
    list: &mut [u8],
) -> usize
    requires stages_of { StagesOf g (view img.now) stages.now }
    requires opened { Opened img.now g }
    requires i_lt_files { i.0 < g.files }
    requires record_size_in_bounds { record_count 0 (2 + sectors_holding (owned_in img.now i.0 0) g) * record_size ≤ length list.old }
    ensures { Emitted list.old 0
        (closed (groups_for (view img.now) (some (plan_for img.now i.0 time)))) list.new result }
{
    let mut numbers = [0u64; 1024];
    let root = directory::updated_root(img, g.edition, time);
    let k = commit::put_copy(list, 0, g, stages, &mut numbers, 0, Sector::ROOT, root);
    let entry = [0u8; 512];
    let j = commit::put_copy(list, k, g, stages, &mut numbers, k, i.sector(), entry);
    let n = freeing::put_freed(list, j, &mut numbers, img, g, stages, i, 0);
    commit::put_commit(list, n, img, g, stages, &numbers, n)
}

// How many records that list has.
fn delete_count(img: &[u8], g: Geometry, i: FileIndex) -> usize
    requires opened { Opened img.now g }
    requires i_lt_free_file { i.0 < free_file }
    ensures value { result ≡ record_count 0 (2 + sectors_holding (owned_in img.now i.0 0) g) }
    ensures upper_bound { result ≤ 2048 }
{
    commit::records_for(2 + table::sectors_from(img, g, i, 0))
}

// Deletes file i: refusals 13 and 14, or the list.
fn delete_file(
    img: &[u8],
    g: Geometry,
    i: FileIndex,
    time: u64,
    list: &mut [u8],
) -> Result<u64, Refusal>
    requires opened { Opened img.now g }
    requires i_lt_files { i.0 < g.files }
    ensures { DeletesTo img.now i.0 time list.old (changed_in result) list.new }
{
    let Some(stages) = table::staging(img, g) else {
        return Err(Refusal::VolumeFull);
    };
    let needed = lists::RECORD_SIZE * delete_count(img, g, i);
    if list.len() < needed {
        return Err(Refusal::TooShort);
    }
    put_delete(img, g, &stages, i, time, list);
    Ok(needed as u64)
}

pub fn delete_in(img: &[u8], name: &[u8], time: u64, list: &mut [u8]) -> Result<u64, Refusal>
    requires { Accepted img.now }
    ensures value { changed_in result ≡ in_volume delete_answer img.now name.now time (length list.old) }
    ensures list_after { list.new ≡ in_volume delete_list img.now name.now time list.old }
{
    let g = volume::geometry_in(img);
    if directory::bad_name_or_time(g.edition, name, time) {
        return Err(Refusal::BadArgument);
    }
    let Some(i) = directory::file_named(img, g, name) else {
        return Err(Refusal::NotFound);
    };
    delete_file(img, g, FileIndex(i as u64), time, list)
}
