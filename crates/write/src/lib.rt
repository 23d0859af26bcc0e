// The calls write and resize on a volume that the refusals 1 to 7 let pass: their refusals and their write lists; and their forms on lent sectors,
// which ask for the sectors that the span covers partly (T-11).
#![tactic(auto)]

ghost use Rattle.std.specs.Prelude.{◌≡◌, false, cond, [], ◌+◌, ◌*◌, ◌-◌, ◌/◌, ◌≤◌, ◌<◌, ◌^◌, eqb, ltb, length, is_none, IfSome, IfOk};
ghost use Rattle.std.proofs.Math.Option.{some};
ghost use Rattle.model.specs.Search.{index_of};
ghost use Rattle.model.specs.Geometry.{extents_for};
ghost use Rattle.model.specs.Disk.{view};
ghost use Rattle.model.specs.Table.{free_file, table_sector_of, taken_in, sectors_holding};
ghost use Rattle.model.specs.Catalogue.{catalogue_of, free_extent, lacks_reserve, entry_of};
ghost use Rattle.model.specs.Refusals.{done};
ghost use Rattle.model.specs.Results.{verdict_for, changed_in};
ghost use Rattle.model.specs.Read.{longest_transfer};
ghost use Rattle.model.specs.WriteList.{record_size, record_count, groups_for, closed, Emitted};
ghost use Rattle.model.specs.Write.{touched_sectors, size_after, no_room, write_answer, write_list};
ghost use Rattle.model.specs.Resize.{zeros, resize_answer, resize_list};
ghost use Rattle.model.specs.Lent.{part_at, partly_covered, write_asking, write_lent, resize_lent, takes_write, write_taken, write_not_taken, write_step, completed, write_step_list};
ghost use Rattle.model.specs.Opened.{Opened, in_volume, Accepted};
ghost use Rattle.commit.specs.Commit.{StagesOf};
ghost use Rattle.table.specs.Owned.{owned_in};
ghost use Rattle.spans.specs.Touched.{Lent, Source, span_of};
ghost use Rattle.write.specs.FileWrite.{Grown, Asked, Spans, Named, plan_for, begun_in, FileWritesTo};
ghost use Rattle.write.specs.FileResize.{shrink_for, FileShrinksTo, FileResizesTo};
ghost use Rattle.write.specs.Parts.{before};

use model::{Extent, FileIndex, Geometry, Part, Refusal, Writing};

// What a new size needs: the extents that the file has, whether it takes one more, and the lowest free one, which it then takes.
#[derive(Clone, Copy)]
pub struct Growth {
    pub held: u64,
    pub more: bool,
    pub next: Extent,
}

// What a write or a resize comes to that nothing refuses: the list's length in bytes, and the file, with the size that it had.
#[derive(Clone, Copy)]
pub struct Begun {
    pub length: u64,
    pub index: FileIndex,
    pub size: u64,
}

// The table sector of extent x, in which x is given to file i as its extent of that offset.
fn taken_sector(img: &[u8], g: Geometry, x: Extent, i: FileIndex, offset: u64) -> [u8; 512]
    requires opened { Opened img.now g }
    requires x_lt_extents { x.0 < g.extents }
    ensures { result ≡ taken_in x.0 i.0 offset (view img.now (table_sector_of g x.0)) }
{
    let mut a = fields::sector(img, g.table_sector_of(x));
    layout::table::put(&mut a, x.table_place(), i.0, offset);
    a
}

// ---- what a write needs

// The extent that a file takes if it needs one more.
fn next_extent(img: &[u8], g: Geometry) -> Extent
    requires { Opened img.now g }
    ensures { result.0 ≡ index_of (free_extent (catalogue_of (view img.now))) }
{
    Extent(table::free_extent(img, g).unwrap_or(0) as u64)
}

// What file i, whose size is given, needs for the new size z; none where that is one more extent and no more than K are free. More than K
// are free where the lowest is below the lowest staging extent.
fn need_for(
    img: &[u8],
    g: Geometry,
    stages: &[u64],
    i: FileIndex,
    size: u64,
    z: u64,
) -> Option<Growth>
    requires stages_of { StagesOf g (view img.now) stages.now }
    requires img_value { lacks_reserve (catalogue_of (view img.now)) ≡ false }
    requires opened { Opened img.now g }
    requires size_value { size ≡ (entry_of (catalogue_of (view img.now)) i.0).size }
    ensures lacking { no_room (catalogue_of (view img.now)) i.0 z ≡ is_none result }
    ensures grown { IfSome result (λ w. Grown (catalogue_of (view img.now)) i.0 z w × (w.next.0 < g.extents)) }
{
    let held = table::extents_for(g, size);
    let more = held < table::extents_for(g, z);
    let next = next_extent(img, g);
    if more && stages[0] <= next.0 {
        return None;
    }
    Some(Growth { held, more, next })
}

// How many sectors n bytes from `offset` on touch.
fn touched_sectors(offset: u64, n: u64) -> u64
    requires { offset + n < 2 ^ 63 }
    ensures { result ≡ touched_sectors offset n }
{
    (offset + n + 511) / 512 - offset / 512
}

// How many records the list of a write of n bytes has: data sectors, one or two targets and what goes with them.
fn records(more: bool, offset: u64, n: u64) -> usize
    requires { (offset + n < 2 ^ 63) × (n ≤ longest_transfer) }
    ensures { (result ≡ record_count (touched_sectors offset n) (cond more 2 1)) × (result ≤ 200) }
{
    let touched = touched_sectors(offset, n) as usize;
    if more { touched + 11 } else { touched + 9 }
}

// ---- the list

// The whole list of a write that makes the size z, from position 0 on: data sectors, the copies of the entry and, if the file
// takes an extent, of its table sector, and the commit.
fn put_write(
    list: &mut [u8],
    img: &[u8],
    g: Geometry,
    stages: &[u64],
    i: FileIndex,
    w: Growth,
    offset: u64,
    bytes: &[u8],
    len: u64,
    z: u64,
    time: u64,
) -> usize
    requires stages_of { StagesOf g (view img.now) stages.now }
    requires opened { Opened img.now g }
    requires grown { Grown (catalogue_of (view img.now)) i.0 z w × (w.next.0 < g.extents) }
    requires i_lt_files { (i.0 < g.files) × (0 < len) × (offset + len < 2 ^ 63) × Source bytes.now len }
    requires z_value { z ≡ size_after (catalogue_of (view img.now)) i.0 offset len }
    requires record_size_in_bounds { record_count (touched_sectors offset len) (cond w.more 2 1) * record_size ≤ length list.old }
    ensures { Emitted list.old 0
        (closed (groups_for (view img.now) (some (plan_for img.now i.0 offset (span_of bytes.now len) time))))
        list.new result }
{
    let first = offset / 512;
    let touched = touched_sectors(offset, len);
    let k = spans::put_data(
        list, 0, img, g, i, w.held, w.next, offset, bytes, len, first, touched,
    );
    let mut numbers = [0u64; 2];
    let entry = directory::updated_entry(img, g.edition, i, z, time);
    let k1 = commit::put_copy(list, k, g, stages, &mut numbers, 0, i.sector(), entry);
    if w.more {
        let t = taken_sector(img, g, w.next, i, w.held);
        let k2 = commit::put_copy(
            list,
            k1,
            g,
            stages,
            &mut numbers,
            1,
            g.table_sector_of(w.next),
            t,
        );
        return commit::put_commit(list, k2, img, g, stages, &numbers, 2);
    }
    commit::put_commit(list, k1, img, g, stages, &numbers, 1)
}

// A write of some bytes to file i, whose size is given, in it or at its end: refusals 13 and 14, or the list.
fn write_staged(
    img: &[u8],
    g: Geometry,
    stages: &[u64],
    i: FileIndex,
    size: u64,
    offset: u64,
    bytes: &[u8],
    len: u64,
    time: u64,
    list: &mut [u8],
) -> Result<u64, Refusal>
    requires stages_of { StagesOf g (view img.now) stages.now }
    requires img_value { (lacks_reserve (catalogue_of (view img.now)) ≡ false) × (0 < len) × (offset ≤ size) }
    requires asked { Asked img.now g i.0 size len }
    requires source { Source bytes.now len }
    ensures { FileWritesTo img.now i.0 offset (span_of bytes.now len) time list.old (changed_in result) list.new }
{
    let z = size.max(offset + len);
    let Some(w) = need_for(img, g, stages, i, size, z) else {
        return Err(Refusal::VolumeFull);
    };
    if list.len() < records(w.more, offset, len) * lists::RECORD_SIZE {
        return Err(Refusal::TooShort);
    }
    let n = put_write(list, img, g, stages, i, w, offset, bytes, len, z, time);
    Ok((n * lists::RECORD_SIZE) as u64)
}

// A write to file i, whose size is given: refusals 12 to 14, or the list. A write of 0 bytes has an empty one.
fn write_file(
    img: &[u8],
    g: Geometry,
    i: FileIndex,
    size: u64,
    offset: u64,
    bytes: &[u8],
    len: u64,
    time: u64,
    list: &mut [u8],
) -> Result<u64, Refusal>
    requires asked { Asked img.now g i.0 size len }
    requires source { Source bytes.now len }
    ensures { FileWritesTo img.now i.0 offset (span_of bytes.now len) time list.old (changed_in result) list.new }
{
    if size < offset {
        return Err(Refusal::PastEnd);
    }
    if len == 0 {
        return Ok(0);
    }
    let Some(stages) = table::staging(img, g) else {
        return Err(Refusal::VolumeFull);
    };
    write_staged(img, g, &stages, i, size, offset, bytes, len, time, list)
}

// ---- write

// The list of a write and the file that it names.
fn begin_write(
    img: &[u8],
    name: &[u8],
    offset: u64,
    bytes: &[u8],
    time: u64,
    list: &mut [u8],
) -> Result<Begun, Refusal>
    requires { Accepted img.now }
    ensures answer_value { begun_in result ≡ in_volume write_answer img.now name.now offset bytes.now time (length list.old) }
    ensures named { IfOk result (Named img.now name.now (offset + length bytes.now)) }
    ensures list_after { list.new ≡ in_volume write_list img.now name.now offset bytes.now time list.old }
{
    let g = volume::geometry_in(img);
    let len = bytes.len() as u64;
    if directory::bad_name_or_time(g.edition, name, time) || model::LONGEST_TRANSFER < len {
        return Err(Refusal::BadArgument);
    }
    let Some(i) = directory::file_named(img, g, name) else {
        return Err(Refusal::NotFound);
    };
    let index = FileIndex(i as u64);
    let size = directory::size_at(img, index);
    let length = write_file(img, g, index, size, offset, bytes, len, time, list)?;
    Ok(Begun {
        length,
        index,
        size,
    })
}

pub fn write_in(
    img: &[u8],
    name: &[u8],
    offset: u64,
    bytes: &[u8],
    time: u64,
    list: &mut [u8],
) -> Result<u64, Refusal>
    requires { Accepted img.now }
    ensures value { changed_in result ≡ in_volume write_answer img.now name.now offset bytes.now time (length list.old) }
    ensures list_after { list.new ≡ in_volume write_list img.now name.now offset bytes.now time list.old }
{
    begin_write(img, name, offset, bytes, time, list).map(|b| b.length)
}

// ---- resize

// How many records the list has that shrinks file i to z.
fn shrink_count(img: &[u8], g: Geometry, i: FileIndex, z: u64) -> usize
    requires opened { Opened img.now g }
    requires i_lt_free_file { i.0 < free_file }
    ensures value { result ≡ record_count 0 (1 + sectors_holding (owned_in img.now i.0 (extents_for g z)) g) }
    ensures upper_bound { result ≤ 2048 }
{
    let first = table::extents_for(g, z);
    commit::records_for(1 + table::sectors_from(img, g, i, first))
}

// The whole list, which has room for it.
fn put_shrink(
    img: &[u8],
    g: Geometry,
    stages: &[u64],
    i: FileIndex,
    z: u64,
    time: u64,
    list: &mut [u8],
) -> usize
    requires stages_of { StagesOf g (view img.now) stages.now }
    requires opened { Opened img.now g }
    requires i_lt_files { i.0 < g.files }
    requires record_size_in_bounds { record_count 0 (1 + sectors_holding (owned_in img.now i.0 (extents_for g z)) g) * record_size ≤ length list.old }
    ensures { Emitted list.old 0
        (closed (groups_for (view img.now) (some (shrink_for img.now i.0 z time)))) list.new result }
{
    let mut numbers = [0u64; 1024];
    let s = directory::updated_entry(img, g.edition, i, z, time);
    let k = commit::put_copy(list, 0, g, stages, &mut numbers, 0, i.sector(), s);
    let first = table::extents_for(g, z);
    let n = freeing::put_freed(list, k, &mut numbers, img, g, stages, i, first);
    commit::put_commit(list, n, img, g, stages, &numbers, n)
}

// File i is shrunk to z: refusals 13 and 14, or the list.
fn shrink_file(
    img: &[u8],
    g: Geometry,
    i: FileIndex,
    z: u64,
    time: u64,
    list: &mut [u8],
) -> Result<u64, Refusal>
    requires opened { Opened img.now g }
    requires i_lt_files { i.0 < g.files }
    ensures { FileShrinksTo img.now i.0 z time list.old (changed_in result) list.new }
{
    let Some(stages) = table::staging(img, g) else {
        return Err(Refusal::VolumeFull);
    };
    if list.len() < shrink_count(img, g, i, z) * lists::RECORD_SIZE {
        return Err(Refusal::TooShort);
    }
    let n = put_shrink(img, g, &stages, i, z, time, list);
    Ok((n * lists::RECORD_SIZE) as u64)
}

// A write of n zeros at the end of file i, whose size is given. A sector of zeros is lent for all of them.
fn write_zeros(
    img: &[u8],
    g: Geometry,
    i: FileIndex,
    size: u64,
    n: u64,
    time: u64,
    list: &mut [u8],
) -> Result<u64, Refusal>
    requires { Asked img.now g i.0 size n }
    ensures { FileWritesTo img.now i.0 size (zeros n) time list.old (changed_in result) list.new }
{
    let zeros = [0u8; 512];
    write_file(img, g, i, size, size, &zeros, n, time, list)
}

// A resize of file i, whose size is given, to z: refusals 8, 13 and 14, or the list.
fn resize_file(
    img: &[u8],
    g: Geometry,
    i: FileIndex,
    size: u64,
    z: u64,
    time: u64,
    list: &mut [u8],
) -> Result<u64, Refusal>
    requires { Asked img.now g i.0 size 0 }
    ensures { FileResizesTo img.now i.0 z time list.old (changed_in result) list.new }
{
    if z < size {
        return shrink_file(img, g, i, z, time, list);
    }
    if model::LONGEST_TRANSFER < z - size {
        return Err(Refusal::BadArgument);
    }
    write_zeros(img, g, i, size, z - size, time, list)
}

// The list of a resize and the file that it names.
fn begin_resize(
    img: &[u8],
    name: &[u8],
    size: u64,
    time: u64,
    list: &mut [u8],
) -> Result<Begun, Refusal>
    requires { Accepted img.now }
    ensures answer_value { begun_in result ≡ in_volume resize_answer img.now name.now size time (length list.old) }
    ensures named { IfOk result (Named img.now name.now size) }
    ensures list_after { list.new ≡ in_volume resize_list img.now name.now size time list.old }
{
    let g = volume::geometry_in(img);
    if directory::bad_name_or_time(g.edition, name, time) {
        return Err(Refusal::BadArgument);
    }
    let Some(i) = directory::file_named(img, g, name) else {
        return Err(Refusal::NotFound);
    };
    let index = FileIndex(i as u64);
    let old = directory::size_at(img, index);
    let length = resize_file(img, g, index, old, size, time, list)?;
    Ok(Begun {
        length,
        index,
        size: old,
    })
}

pub fn resize_in(
    img: &[u8],
    name: &[u8],
    size: u64,
    time: u64,
    list: &mut [u8],
) -> Result<u64, Refusal>
    requires { Accepted img.now }
    ensures value { changed_in result ≡ in_volume resize_answer img.now name.now size time (length list.old) }
    ensures list_after { list.new ≡ in_volume resize_list img.now name.now size time list.old }
{
    begin_resize(img, name, size, time, list).map(|b| b.length)
}

// ---- T-11: what a write asks for

// In a `Writing`, which C reads too, no part: sector 0 is the superblock.
const NO_PART: Part = Part {
    sector: 0,
    from: 0,
    to: 0,
    position: 0,
};

// An answer that asks for nothing.
fn settled(length: u64) -> Writing
    ensures { result ≡ write_asking (record { verdict = done; length = length }) [] }
{
    Writing {
        code: 0,
        fault: 0,
        place: 0,
        length,
        wanted: NO_PART,
        last: NO_PART,
        full: length,
    }
}

// What the lent forms answer where they refuse.
pub fn refused_writing(r: Refusal) -> Writing
    ensures { result ≡ write_asking (record { verdict = verdict_for r; length = 0 }) [] }
{
    Writing {
        code: r.number(),
        fault: r.fault(),
        place: r.place(),
        ..settled(0)
    }
}

// The part, unless the span covers all of its sector.
fn partly(p: Part) -> Option<Part>
    requires { p.from ≤ p.to }
    ensures { result ≡ cond (ltb (p.to - p.from) 512) (Some p) None }
{
    (p.to - p.from < 512).then_some(p)
}

// An answer that asks for these; the list's length is given with the last of them.
fn wanting(full: u64, first: Option<Part>, last: Option<Part>) -> Writing
    ensures { result ≡ write_asking (record { verdict = done; length = full }) (before first (before last [])) }
{
    let asking = Writing {
        length: 0,
        ..settled(full)
    };
    match (first, last) {
        (None, None) => settled(full),
        (Some(p), None) | (None, Some(p)) => Writing {
            wanted: p,
            ..asking
        },
        (Some(p), Some(q)) => Writing {
            wanted: p,
            last: q,
            ..asking
        },
    }
}

// The k-th of the sectors that a span of n bytes touches, and the bytes of it that the span covers.
fn part_at(
    img: &[u8],
    g: Geometry,
    i: FileIndex,
    held: u64,
    next: Extent,
    offset: u64,
    n: u64,
    k: u64,
) -> Part
    requires opened { Opened img.now g }
    requires lent { Lent img.now i.0 held next.0 }
    requires n_bound { (offset + n < 2 ^ 63) × (512 * (offset / 512 + k) ≤ offset + n) }
    ensures value { result ≡ part_at (catalogue_of (view img.now)) i.0 offset n k }
    ensures from_le_to { result.from ≤ result.to }
{
    let s = offset / 512 + k;
    let base = 512 * s;
    let place = spans::sector_at(img, g, i, held, next, s);
    Part {
        sector: place.0,
        from: offset.max(base) - base,
        to: (offset + n).min(base + 512) - base,
        position: k,
    }
}

// A write of n bytes that is begun: where a list follows, the sectors that the span covers partly are asked for.
fn asking(img: &[u8], b: Begun, offset: u64, n: u64) -> Writing
    requires accepted { Accepted img.now }
    requires spans { Spans (catalogue_of (view img.now)) b.index.0 b.size (offset + n) }
    ensures { result ≡ write_asking (record { verdict = done; length = b.length })
        (cond (eqb b.length 0) [] (partly_covered (catalogue_of (view img.now)) b.index.0 offset n)) }
{
    if b.length == 0 {
        return settled(0);
    }
    let g = volume::geometry_in(img);
    let held = table::extents_for(g, b.size);
    let next = next_extent(img, g);
    let touched = touched_sectors(offset, n);
    let first = part_at(img, g, b.index, held, next, offset, n, 0);
    if 1 < touched {
        let last = part_at(img, g, b.index, held, next, offset, n, touched - 1);
        return wanting(b.length, partly(first), partly(last));
    }
    wanting(b.length, partly(first), None)
}

// ---- T-11: write and resize on lent sectors

pub fn write_lent_in(
    img: &[u8],
    name: &[u8],
    offset: u64,
    bytes: &[u8],
    time: u64,
    list: &mut [u8],
) -> Writing
    requires { Accepted img.now }
    ensures value { result ≡ in_volume write_lent img.now name.now offset bytes.now time (length list.old) }
    ensures list_after { list.new ≡ in_volume write_list img.now name.now offset bytes.now time list.old }
{
    match begin_write(img, name, offset, bytes, time, list) {
        Ok(b) => asking(img, b, offset, bytes.len() as u64),
        Err(r) => refused_writing(r),
    }
}

pub fn resize_lent_in(img: &[u8], name: &[u8], size: u64, time: u64, list: &mut [u8]) -> Writing
    requires { Accepted img.now }
    ensures value { result ≡ in_volume resize_lent img.now name.now size time (length list.old) }
    ensures list_after { list.new ≡ in_volume resize_list img.now name.now size time list.old }
{
    match begin_resize(img, name, size, time, list) {
        Ok(b) if size < b.size => settled(b.length),
        Ok(b) => asking(img, b, b.size, size - b.size),
        Err(r) => refused_writing(r),
    }
}

// ---- T-11: the sectors that were asked for

// Whether a data sector is asked for and its bytes, n of them, fit the list of so many.
fn takes_write(w: Writing, n: usize, room: usize) -> bool
    ensures { result ≡ takes_write w n room }
{
    let p = w.wanted;
    volume::is_asked(p.sector, n)
        && p.from <= p.to
        && p.to <= 512
        && p.position < (room / lists::RECORD_SIZE) as u64
}

// The bytes of a sector before and behind those that the span covers, put into its record.
fn complete(p: Part, bytes: &[u8], list: &mut [u8])
    requires bytes_len { length bytes.now ≡ 512 }
    requires from_le_to { (p.from ≤ p.to) × (p.to ≤ 512) × ((p.position + 1) * record_size ≤ length list.old) }
    ensures { list.new ≡ completed p bytes.now list.old }
{
    let at = p.position as usize * lists::RECORD_SIZE + lists::CONTENTS_START;
    let to = p.to as usize;
    fields::copy_bytes(bytes, 0, list, at, p.from as usize);
    fields::copy_bytes(bytes, to, list, at + to, 512 - to);
}

// The list's length is given once nothing is asked for any more.
fn write_taken(w: Writing) -> Writing
    ensures { result ≡ write_taken w }
{
    Writing {
        code: 0,
        length: if w.last.sector == 0 { w.full } else { 0 },
        wanted: w.last,
        last: NO_PART,
        ..w
    }
}

fn write_not_taken(w: Writing) -> Writing
    ensures { result ≡ write_not_taken w }
{
    Writing {
        code: Refusal::BadArgument.number(),
        ..w
    }
}

// The bytes of the sector that is asked for: the list is whole with the last of them.
pub fn write_step(w: Writing, bytes: &[u8], list: &mut [u8]) -> Writing
    ensures value { result ≡ write_step w (length bytes.now) (length list.old) }
    ensures list_after { list.new ≡ write_step_list w bytes.now list.old }
{
    if takes_write(w, bytes.len(), list.len()) {
        complete(w.wanted, bytes, list);
        return write_taken(w);
    }
    write_not_taken(w)
}
