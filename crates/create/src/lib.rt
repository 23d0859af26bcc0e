// Create, on a volume that the refusals 1 to 7 let pass.
#![tactic(auto)]

ghost use Rattle.std.specs.Prelude.{◌≡◌, ◌||◌, ◌*◌, ◌≤◌, eqb, length, Some, IfOk};
ghost use Rattle.std.proofs.Math.Option.{some};
ghost use Rattle.model.specs.Search.{any_below, is_at};
ghost use Rattle.model.specs.Disk.{view};
ghost use Rattle.model.specs.Edition.{layout_of, bad_time};
ghost use Rattle.model.specs.Entry.{bad_new_name};
ghost use Rattle.model.specs.Catalogue.{catalogue_of, file_named, free_entry, has_id};
ghost use Rattle.model.specs.Refusals.{verdict_of};
ghost use Rattle.model.specs.WriteList.{record_size, closed, groups_for, Emitted};
ghost use Rattle.model.specs.Create.{create_conditions, create_plan, create_count, create_answer, create_list};
ghost use Rattle.model.specs.Results.{verdict_in, changed_in};
ghost use Rattle.model.specs.Opened.{Opened, in_volume, Accepted};
ghost use Rattle.commit.specs.Commit.{StagesOf};

use model::{FileIndex, Geometry, Refusal, Sector};

// A create's list has 11 records.
const LIST_SIZE: usize = 11 * lists::RECORD_SIZE;

// ---- the refusals 8, 10 and 11

fn bad_argument(edition: u64, name: &[u8], id: u64, time: u64) -> bool
    ensures { result ≡ (bad_time edition time || (bad_new_name edition name.now || eqb id 0)) }
{
    layout::edition::bad_time(edition, time) || directory::bad_new_name(edition, name) || id == 0
}

// The name is there, or the id is an occupied entry's or the root's.
fn is_taken(img: &[u8], g: Geometry, name: &[u8], id: u64) -> bool
    requires opened { Opened img.now g }
    requires name_len_bound { length name.now ≤ (layout_of g.edition).longest_name }
    ensures { result ≡ (is_at (file_named (catalogue_of (view img.now)) name.now)
        || any_below (λ i. has_id id ((catalogue_of (view img.now)).entries i)) (catalogue_of (view img.now)).geometry.files
        || eqb id (catalogue_of (view img.now)).root.id) }
{
    directory::file_named(img, g, name).is_some()
        || directory::has_id(img, g, id)
        || id == directory::root_id(img)
}

// The entry that a create fills.
fn entry_for(img: &[u8], g: Geometry, name: &[u8], id: u64, time: u64) -> Result<FileIndex, Refusal>
    requires { Opened img.now g }
    ensures verdict { verdict_in result ≡ verdict_of (create_conditions (catalogue_of (view img.now)) name.now id time) }
    ensures entry { IfOk result (λ i. free_entry (catalogue_of (view img.now)) ≡ Some i.0) }
{
    if bad_argument(g.edition, name, id, time) {
        return Err(Refusal::BadArgument);
    }
    if is_taken(img, g, name, id) {
        return Err(Refusal::Taken);
    }
    let Some(i) = directory::free_entry(img, g) else {
        return Err(Refusal::DirectoryFull);
    };
    Ok(FileIndex(i as u64))
}

// ---- the list

// The list that fills entry i, the lowest free one.
fn put_create(
    list: &mut [u8],
    img: &[u8],
    g: Geometry,
    stages: &[u64],
    i: FileIndex,
    name: &[u8],
    id: u64,
    mode: u32,
    time: u64,
) -> usize
    requires stages_of { StagesOf g (view img.now) stages.now }
    requires record_size_in_bounds { create_count * record_size ≤ length list.old }
    requires opened { Opened img.now g }
    requires entry { free_entry (catalogue_of (view img.now)) ≡ Some i.0 }
    requires name_len_bound { length name.now ≤ (layout_of g.edition).longest_name }
    ensures { Emitted list.old 0
        (closed (groups_for (view img.now) (some (create_plan (catalogue_of (view img.now)) (view img.now) name.now id mode time)))) list.new result }
{
    let root = directory::updated_root(img, g.edition, time);
    let entry = layout::entry::new(g.edition, name, id, mode, time);
    commit::put_targets_alone(
        list,
        img,
        g,
        stages,
        &[(Sector::ROOT, root), (i.sector(), entry)],
    )
}

// ---- the call

pub fn create_in(
    img: &[u8],
    list: &mut [u8],
    name: &[u8],
    id: u64,
    mode: u32,
    time: u64,
) -> Result<u64, Refusal>
    requires { Accepted img.now }
    ensures value { changed_in result ≡ in_volume create_answer img.now name.now id mode time (length list.old) }
    ensures list_after { list.new ≡ in_volume create_list img.now name.now id mode time list.old }
{
    let g = volume::geometry_in(img);
    let i = entry_for(img, g, name, id, time)?;
    let Some(stages) = table::staging(img, g) else {
        return Err(Refusal::VolumeFull);
    };
    if list.len() < LIST_SIZE {
        return Err(Refusal::TooShort);
    }
    put_create(list, img, g, &stages, i, name, id, mode, time);
    Ok(LIST_SIZE as u64)
}
