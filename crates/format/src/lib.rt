// Format: the geometry that a sector count gives, and a new volume's records, asked for one at a time by position.
#![tactic(auto)]

ghost use Rattle.std.specs.Prelude.{◌≡◌, not, ◌&&◌, ◌+◌, ◌-◌, ◌≤◌, ◌<◌, leb, length};
ghost use Rattle.model.specs.Bytes.{put, ones_sector};
ghost use Rattle.model.specs.Geometry.{in_bounds};
ghost use Rattle.model.specs.Edition.{is_edition, bad_time};
ghost use Rattle.model.specs.WriteList.{sector_write, barrier, record_size, record_bytes};
ghost use Rattle.model.specs.Results.{formatted_in};
ghost use Rattle.model.specs.Format.{Format, doubled, geometry_for, format_count, format_record, format_answer, format_output};
ghost use Rattle.model.specs.Opened.{Bounded};

use model::{FileIndex, Geometry, Refusal, Sector};

// ---- the geometry

// G, the sectors that are left for the data area; 0 where there are too few.
fn data_room(sectors: u64, files: u64) -> u64
    ensures { result ≡ sectors - 546 - files }
{
    sectors.saturating_sub(546).saturating_sub(files)
}

// S: 128, doubled while G / S exceeds 65,535, 24 times at most.
fn extent_sectors_for(room: u64) -> u32
    ensures value { result ≡ doubled room 24 128 }
    ensures result_nonzero { 0 < result }
{
    let mut s: u32 = 128;
    for _i in 0..24u32 {
        if room / u64::from(s) <= 65535 {
            return s;
        }
        s *= 2;
    }
    s
}

// The geometry that a sector count gives. It may break the bounds: N passes 65,535 where the doubling ends too early.
fn geometry_for(sectors: u64, files: u64, edition: u64) -> Geometry
    ensures { result ≡ geometry_for sectors files edition }
{
    let room = data_room(sectors, files);
    let s = extent_sectors_for(room);
    Geometry {
        files,
        extents: room / u64::from(s),
        extent_sectors: s,
        edition,
    }
}

// The files are in bounds, and there is a geometry. The bounds are tested first, so that the sum cannot overflow.
fn has_room(sectors: u64, g: Geometry) -> bool
    ensures { result ≡ (leb (546 + g.files) sectors && in_bounds g) }
{
    g.in_bounds() && 546 + g.files <= sectors
}

// There is such an edition, and its fields hold the time.
fn can_format(sectors: u64, g: Geometry, time: u64) -> bool
    ensures { result ≡ (leb (546 + g.files) sectors && in_bounds g && is_edition g.edition && not (bad_time g.edition time)) }
{
    has_room(sectors, g)
        && layout::edition::is_edition(g.edition)
        && !layout::edition::bad_time(g.edition, time)
}

// ---- the sectors of a new volume

// A sector of the allocation table in which every extent is free.
fn free_table_sector() -> [u8; 512]
    ensures { result ≡ ones_sector }
{
    [255u8; 512]
}

// ---- the records

fn record_count(g: Geometry) -> u64
    requires { Bounded g }
    ensures { result ≡ format_count g }
{
    g.files + g.table_sectors() + 6
}

// The record of position p at the output's front: a sector's number and its new contents.
fn put_sector(out: &mut [u8], p: u64, sector: Sector, s: [u8; 512])
    requires { record_size ≤ length out.old }
    ensures { out.new ≡ put out.old 0 (record_bytes p (sector_write sector.0 s)) }
{
    lists::put_at(out, 0, p, sector, &s, 0)
}

// The record of position p at the output's front is a barrier.
fn put_barrier(out: &mut [u8], p: u64)
    requires { record_size ≤ length out.old }
    ensures { out.new ≡ put out.old 0 (record_bytes p barrier) }
{
    put_sector(out, p, lists::BARRIER, layout::zero_sector())
}

// The record of a position, with this position, at the output's front.
fn put_record(g: Geometry, id: u64, mode: u32, time: u64, p: u64, out: &mut [u8])
    requires bounded { Bounded g }
    requires p_bound { p < format_count g }
    requires record_size_in_bounds { record_size ≤ length out.old }
    ensures { (a : Format) → a.id ≡ id → a.mode ≡ mode → a.time ≡ time → out.new ≡ put out.old 0 (record_bytes p (format_record g a p)) }
{
    let table = 3 + g.files;
    let table_end = table + g.table_sectors();
    if p == 0 {
        put_sector(
            out,
            p,
            Sector::SUPERBLOCK,
            layout::superblock::new(g, 65535),
        )
    } else if p == 1 {
        put_barrier(out, p)
    } else if p == 2 {
        put_sector(
            out,
            p,
            Sector::ROOT,
            layout::root::new(g.edition, id, mode, time),
        )
    } else if p < table {
        put_sector(out, p, FileIndex(p - 3).sector(), layout::zero_sector())
    } else if p < table_end {
        put_sector(out, p, g.table_sector(p - table), free_table_sector())
    } else if p == table_end + 1 {
        put_sector(out, p, Sector::SUPERBLOCK, layout::superblock::new(g, 0))
    } else {
        put_barrier(out, p)
    }
}

// One record of a format; 8, 9 or 14 leave the output as it is.
pub fn format_record(
    sectors: u64,
    files: u64,
    edition: u64,
    id: u64,
    mode: u32,
    time: u64,
    position: u64,
    out: &mut [u8],
) -> Result<u64, Refusal>
    ensures value { formatted_in result ≡ format_answer (record { sectors = sectors; files = files; edition = edition; id = id; mode = mode; time = time }) position (length out.old) }
    ensures out_after { out.new ≡ format_output (record { sectors = sectors; files = files; edition = edition; id = id; mode = mode; time = time }) position out.old }
{
    let g = geometry_for(sectors, files, edition);
    if !can_format(sectors, g, time) {
        return Err(Refusal::BadArgument);
    }
    if record_count(g) <= position {
        return Err(Refusal::NotFound);
    }
    if out.len() < lists::RECORD_SIZE {
        return Err(Refusal::TooShort);
    }
    put_record(g, id, mode, time, position, out);
    Ok(lists::RECORD_SIZE as u64)
}
