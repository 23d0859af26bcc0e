// What find, list and read give, and the access times that list and read set, on a volume that the refusals 1 to 7 let pass.
#![tactic(auto)]

ghost use Rattle.std.specs.Prelude.{◌≡◌, true, cond, ◌||◌, ◌+◌, ◌*◌, ◌≤◌, ◌<◌, ◌^◌, eqb, ltb, length, is_none, Some, IfSome, IfOk, Ok};
ghost use Rattle.std.proofs.Math.Option.{none, some};
ghost use Rattle.model.specs.Bytes.{number_in, put};
ghost use Rattle.model.specs.Geometry.{superblock_at, entry_at, volume_sectors};
ghost use Rattle.model.specs.Disk.{view};
ghost use Rattle.model.specs.Superblock.{geometry_in};
ghost use Rattle.model.specs.Table.{free_file};
ghost use Rattle.model.specs.Edition.{layout_of, bad_time};
ghost use Rattle.model.specs.Entry.{entry_field, name_in, is_occupied, bad_name};
ghost use Rattle.model.specs.Catalogue.{catalogue_of, file_named, file_bytes};
ghost use Rattle.model.specs.Refusals.{verdict_of};
ghost use Rattle.model.specs.WriteList.{barrier_number, one_target, emit, groups_for, closed, list_after};
ghost use Rattle.model.specs.Find.{name_conditions, found_by};
ghost use Rattle.model.specs.Listing.{listed_of, copied_of, list_answer, list_output, listing_list};
ghost use Rattle.model.specs.Read.{longest_transfer, read_count, read_answer, read_output, read_list};
ghost use Rattle.model.specs.Lent.{read_idle, read_asking, read_begun, read_lent, takes_read, read_step, read_step_output};
ghost use Rattle.model.specs.Opened.{Opened, in_volume, Accepted};
ghost use Rattle.model.specs.Results.{verdict_in, found_in, listed_in, read_in};
ghost use Rattle.commit.specs.Commit.{StagesOf};
ghost use Rattle.reading.specs.Given.{asked_verdict, access_size, lent_verdict, file_verdict, entry_decision, file_decision, file_read};

use model::{FileIndex, FoundFile, Geometry, ListedFile, ReadBytes, Reading, Refusal, Sector};

pub fn find_in(img: &[u8], name: &[u8]) -> Result<FoundFile, Refusal>
    requires { Accepted img.now }
    ensures { found_in result ≡ found_by (verdict_of (name_conditions (catalogue_of (view img.now)) name.now)) (catalogue_of (view img.now)) name.now }
{
    let g = volume::geometry_in(img);
    if directory::bad_name(g.edition, name) {
        return Err(Refusal::BadArgument);
    }
    let Some(i) = directory::file_named(img, g, name) else {
        return Err(Refusal::NotFound);
    };
    let index = FileIndex(i as u64);
    let fields = directory::fields_at(img, g.edition, index);
    Ok(FoundFile { index, fields })
}

// 14 where the output is shorter than what is given, or the list than what stands in it.
fn lent_verdict(needed: usize, room: usize, listed: usize, space: usize) -> Result<(), Refusal>
    ensures { verdict_in result ≡ lent_verdict needed room listed space }
{
    if room < needed || space < listed {
        return Err(Refusal::TooShort);
    }
    Ok(())
}

// ---- the access time: one target, where the reserve is there

fn access_size(staging: Option<[u64; 5]>) -> usize
    ensures { result ≡ access_size (is_none staging) }
{
    if staging.is_some() {
        commit::ONE_TARGET_SIZE
    } else {
        0
    }
}

fn put_access(
    list: &mut [u8],
    img: &[u8],
    g: Geometry,
    staging: Option<[u64; 5]>,
    target: Sector,
    s: [u8; 512],
)
    requires stages_of { IfSome staging (λ stages. StagesOf g (view img.now) stages) }
    requires staging_in_bounds { access_size (is_none staging) ≤ length list.old }
    requires opened { Opened img.now g }
    ensures { list.new ≡ emit list.old 0
        (closed (groups_for (view img.now) (cond (is_none staging) none (some (one_target target.0 s))))) }
{
    if let Some(stages) = staging {
        commit::put_one_target(list, img, g, &stages, target, s);
    }
}

// ---- list

// Copies entry i's name to the front of the output, which has room for it.
fn copy_name(img: &[u8], edition: u64, i: FileIndex, out: &mut [u8], n: usize)
    requires i_in_bounds { 512 * entry_at i.0 + 512 ≤ length img.now }
    requires n_value { (n ≡ number_in (view img.now (entry_at i.0)) (layout_of edition).name_length) × (n ≤ (layout_of edition).longest_name) × (n ≤ length out.old) }
    ensures { out.new ≡ put out.old 0 (name_in edition (view img.now (entry_at i.0))) }
{
    fields::copy_bytes(directory::name_at(img, edition, i), 0, out, 0, n);
}

// Lists entry i, which is occupied, and sets the root's access time: refusal 14, or all of it.
fn list_entry(
    img: &[u8],
    g: Geometry,
    i: FileIndex,
    time: u64,
    out: &mut [u8],
    list: &mut [u8],
) -> Result<ListedFile, Refusal>
    requires opened { Opened img.now g }
    requires i_lt_files { (i.0 < g.files) × (is_occupied (view img.now (entry_at i.0)) ≡ true)
        × (number_in (view img.now (entry_at i.0)) (layout_of g.edition).name_length ≤ (layout_of g.edition).longest_name) }
    ensures value { listed_in result ≡ listed_of (entry_decision (view img.now) i.0 time (length out.old) (length list.old)) (view img.now) i.0 }
    ensures out_after { out.new ≡ put out.old 0
        (copied_of (entry_decision (view img.now) i.0 time (length out.old) (length list.old)) (view img.now) i.0) }
    ensures list_after { list.new ≡ list_after (view img.now)
        (entry_decision (view img.now) i.0 time (length out.old) (length list.old)) list.old }
{
    let fields = directory::fields_at(img, g.edition, i);
    let n = fields.name_length as usize;
    let staging = table::staging(img, g);
    let listed = access_size(staging);
    lent_verdict(n, out.len(), listed, list.len())?;
    copy_name(img, g.edition, i, out, n);
    let root = directory::accessed_root(img, g.edition, time);
    put_access(list, img, g, staging, Sector::ROOT, root);
    Ok(ListedFile {
        fields,
        length: listed as u64,
    })
}

pub fn list_in(
    img: &[u8],
    index: u64,
    time: u64,
    out: &mut [u8],
    list: &mut [u8],
) -> Result<ListedFile, Refusal>
    requires { Accepted img.now }
    ensures value { listed_in result ≡ in_volume list_answer img.now index time (length out.old) (length list.old) }
    ensures out_after { out.new ≡ in_volume list_output img.now index time out.old (length list.old) }
    ensures list_after { list.new ≡ in_volume listing_list img.now index time (length out.old) list.old }
{
    let g = volume::geometry_in(img);
    if layout::edition::bad_time(g.edition, time) || g.files <= index {
        return Err(Refusal::BadArgument);
    }
    let i = FileIndex(index);
    if !directory::is_occupied(img, i) {
        return Err(Refusal::NotFound);
    }
    list_entry(img, g, i, time, out, list)
}

// ---- read

fn bad_argument(edition: u64, name: &[u8], asked: u64, time: u64) -> bool
    ensures { result ≡ (bad_time edition time || (bad_name edition name.now || ltb longest_transfer asked)) }
{
    layout::edition::bad_time(edition, time)
        || directory::bad_name(edition, name)
        || model::LONGEST_TRANSFER < asked
}

// The file that a read names: 8 or 9.
fn file_asked(
    img: &[u8],
    g: Geometry,
    name: &[u8],
    asked: u64,
    time: u64,
) -> Result<FileIndex, Refusal>
    requires { Opened img.now g }
    ensures verdict { verdict_in result ≡ asked_verdict (catalogue_of (view img.now)) g.edition name.now asked time }
    ensures file { IfOk result (λ i. (file_named (catalogue_of (view img.now)) name.now ≡ Some i.0) × (asked ≤ longest_transfer)) }
{
    if bad_argument(g.edition, name, asked, time) {
        return Err(Refusal::BadArgument);
    }
    let Some(i) = directory::file_named(img, g, name) else {
        return Err(Refusal::NotFound);
    };
    Ok(FileIndex(i as u64))
}

// How many bytes are given: 12, or 14 for either buffer.
fn read_count(
    size: u64,
    offset: u64,
    asked: u64,
    room: usize,
    listed: usize,
    space: usize,
) -> Result<u64, Refusal>
    requires { asked ≤ longest_transfer }
    ensures verdict { verdict_in result ≡ file_verdict size offset asked room listed space }
    ensures count { IfOk result (λ n. n ≡ read_count size offset asked) }
{
    if size < offset {
        return Err(Refusal::PastEnd);
    }
    let count = asked.min(size - offset);
    lent_verdict(count as usize, room, listed, space)?;
    Ok(count)
}

// What a read of file i comes to but for its bytes: refusals 12 and 14, or the list of its access time. `room` is the output's length.
fn decide_read(
    img: &[u8],
    g: Geometry,
    i: FileIndex,
    offset: u64,
    asked: u64,
    time: u64,
    room: u64,
    list: &mut [u8],
) -> Result<ReadBytes, Refusal>
    requires opened { Opened img.now g }
    requires i_lt_files { (i.0 < g.files) × (is_occupied (view img.now (entry_at i.0)) ≡ true) × (asked ≤ longest_transfer) }
    ensures value { read_in result ≡ file_read (file_decision (view img.now) i.0 offset asked time room (length list.old)) (view img.now) i.0 offset asked }
    ensures list_after { list.new ≡ list_after (view img.now) (file_decision (view img.now) i.0 offset asked time room (length list.old)) list.old }
{
    let size = directory::size_at(img, i);
    let staging = table::staging(img, g);
    let listed = access_size(staging);
    let count = read_count(size, offset, asked, room as usize, listed, list.len())?;
    let entry = directory::accessed_entry(img, g.edition, i, time);
    let target = i.sector();
    put_access(list, img, g, staging, target, entry);
    Ok(ReadBytes {
        count,
        length: listed as u64,
    })
}

// Reads of file i and sets its access time, where the image holds the data area.
fn read_file(
    img: &[u8],
    g: Geometry,
    i: FileIndex,
    offset: u64,
    asked: u64,
    time: u64,
    out: &mut [u8],
    list: &mut [u8],
) -> Result<ReadBytes, Refusal>
    requires opened { Opened img.now g }
    requires g_in_bounds { 512 * volume_sectors g ≤ length img.now }
    requires i_lt_files { (i.0 < g.files) × (is_occupied (view img.now (entry_at i.0)) ≡ true) × (number_in (view img.now (entry_at i.0)) entry_field.size < 2 ^ 62) × (asked ≤ longest_transfer) }
    ensures value { read_in result ≡ file_read
        (file_decision (view img.now) i.0 offset asked time (length out.old) (length list.old)) (view img.now) i.0 offset asked }
    ensures out_after { out.new ≡ put out.old 0 (file_bytes (catalogue_of (view img.now)) (view img.now) i.0 offset (read_in result).count) }
    ensures list_after { list.new ≡ list_after (view img.now)
        (file_decision (view img.now) i.0 offset asked time (length out.old) (length list.old)) list.old }
{
    let r = decide_read(img, g, i, offset, asked, time, out.len() as u64, list)?;
    spans::read_span(img, g, i, offset, out, 0, r.count as usize);
    Ok(r)
}

pub fn read_in(
    img: &[u8],
    name: &[u8],
    offset: u64,
    asked: u64,
    time: u64,
    out: &mut [u8],
    list: &mut [u8],
) -> Result<ReadBytes, Refusal>
    requires accepted { Accepted img.now }
    requires superblock_at_in_bounds { 512 * volume_sectors (geometry_in (view img.now superblock_at)) ≤ length img.now }
    ensures value { read_in result ≡ in_volume read_answer img.now name.now offset asked time (length out.old) (length list.old) }
    ensures out_after { out.new ≡ in_volume read_output img.now name.now offset asked time out.old (length list.old) }
    ensures list_after { list.new ≡ in_volume read_list img.now name.now offset asked time (length out.old) list.old }
{
    let g = volume::geometry_in(img);
    let i = file_asked(img, g, name, asked, time)?;
    read_file(img, g, i, offset, asked, time, out, list)
}

// ---- read without the data area (T-11): its sectors are asked for, one after the other

// C reads a `Reading` too, so a refusal stands in it by its numbers.
const IDLE: Reading = Reading {
    code: 0,
    fault: 0,
    place: 0,
    count: 0,
    length: 0,
    wanted: 0,
    skip: 0,
    done: 0,
    edge: 0,
    next: 0,
};

// A read that asks for nothing.
pub fn idle(a: Result<ReadBytes, Refusal>) -> Reading
    ensures { result ≡ read_idle (read_in a) }
{
    match a {
        Ok(bytes) => Reading {
            count: bytes.count,
            length: bytes.length,
            ..IDLE
        },
        Err(refusal) => Reading {
            code: refusal.number(),
            fault: refusal.fault(),
            place: refusal.place(),
            ..IDLE
        },
    }
}

// A read of file i that asks for the sector of its first byte.
fn asking(img: &[u8], g: Geometry, i: FileIndex, offset: u64, bytes: ReadBytes) -> Reading
    requires opened { Opened img.now g }
    requires i_lt_free_file { i.0 < free_file }
    ensures { result ≡ read_asking (catalogue_of (view img.now)) i.0 offset (read_in (Ok bytes)) }
{
    let e = 512 * (g.extent_sectors as u64);
    let o = offset / e;
    let within = offset % e;
    let start = g.extent_at(table::extent_of(img, g, i, o));
    let next = g.extent_at(table::extent_of(img, g, i, o + 1));
    Reading {
        count: bytes.count,
        length: bytes.length,
        wanted: start.0 + within / 512,
        skip: offset % 512,
        edge: e - within,
        next: next.0,
        ..IDLE
    }
}

fn begin_read(
    img: &[u8],
    g: Geometry,
    i: FileIndex,
    offset: u64,
    asked: u64,
    time: u64,
    room: u64,
    list: &mut [u8],
) -> Reading
    requires opened { Opened img.now g }
    requires i_lt_files { (i.0 < g.files) × (is_occupied (view img.now (entry_at i.0)) ≡ true) × (asked ≤ longest_transfer) }
    ensures value { result ≡ read_begun (catalogue_of (view img.now)) i.0 offset
        (file_read (file_decision (view img.now) i.0 offset asked time room (length list.old)) (view img.now) i.0 offset asked) }
    ensures list_after { list.new ≡ list_after (view img.now) (file_decision (view img.now) i.0 offset asked time room (length list.old)) list.old }
{
    let a = decide_read(img, g, i, offset, asked, time, room, list);
    match a {
        Ok(bytes) if bytes.count != 0 => asking(img, g, i, offset, bytes),
        _ => idle(a),
    }
}

pub fn read_lent_in(
    img: &[u8],
    name: &[u8],
    offset: u64,
    asked: u64,
    time: u64,
    room: u64,
    list: &mut [u8],
) -> Reading
    requires { Accepted img.now }
    ensures value { result ≡ in_volume read_lent img.now name.now offset asked time room (length list.old) }
    ensures list_after { list.new ≡ in_volume read_list img.now name.now offset asked time room list.old }
{
    let g = volume::geometry_in(img);
    match file_asked(img, g, name, asked, time) {
        Ok(i) => begin_read(img, g, i, offset, asked, time, room, list),
        Err(refusal) => idle(Err(refusal)),
    }
}

// A data sector is asked for, these are the bytes of one, and the output has room for the whole span.
fn takes_read(r: Reading, n: usize, room: usize) -> bool
    ensures { result ≡ takes_read r n room }
{
    volume::is_asked(r.wanted, n) && r.skip < 512 && r.done < r.count && r.count <= room as u64
}

// What is asked for once n bytes of the span are there.
fn wanted_after(r: Reading, n: u64) -> u64
    requires { r.wanted < barrier_number }
    ensures { result ≡ cond (eqb n r.count) 0 (cond (eqb n r.edge) r.next (r.wanted + 1)) }
{
    if n == r.count {
        return 0;
    }
    if n == r.edge {
        return r.next;
    }
    r.wanted + 1
}

// Takes the bytes of the sector that is asked for: 8 where these can't be they, and then nothing changes.
pub fn read_step(r: Reading, bytes: &[u8], out: &mut [u8]) -> Reading
    ensures value { result ≡ read_step r (length bytes.now) (length out.old) }
    ensures out_after { out.new ≡ read_step_output r bytes.now out.old }
{
    if !takes_read(r, bytes.len(), out.len()) {
        return Reading { code: 8, ..r };
    }
    let part = (512 - r.skip).min(r.count - r.done);
    let n = r.done + part;
    let wanted = wanted_after(r, n);
    fields::copy_bytes(bytes, r.skip as usize, out, r.done as usize, part as usize);
    Reading {
        code: 0,
        wanted,
        skip: 0,
        done: n,
        ..r
    }
}
