// A file's bytes over its extents: a span is cut at the next extent edge and the rest again, until nothing is left.
// Reading copies a span out; writing emits its data sectors in file order.
#![tactic(auto)]

ghost use Rattle.std.specs.Prelude.{◌≡◌, cond, [], ◌∷◌, ◌+◌, ◌*◌, ◌-◌, ◌%◌, ◌≤◌, ◌<◌, ◌^◌, ltb, length};
ghost use Rattle.model.specs.Bytes.{bytes_from, put};
ghost use Rattle.model.specs.Search.{tabulate};
ghost use Rattle.model.specs.Geometry.{extent_sectors, volume_sectors};
ghost use Rattle.model.specs.Disk.{view};
ghost use Rattle.model.specs.Table.{free_file};
ghost use Rattle.model.specs.Catalogue.{catalogue_of, file_bytes, extent_of};
ghost use Rattle.model.specs.WriteList.{sector_write, record_size, Emitted};
ghost use Rattle.model.specs.Write.{spliced, file_sector_at, data_sector};
ghost use Rattle.model.specs.Opened.{Opened};
ghost use Rattle.spans.specs.Touched.{Touched, Lent, Source, span_of};

use model::{Extent, FileIndex, Geometry, Sector};

// ---- reading

// Copies those of the n bytes of file i from `offset` on that lie in one extent to `out` at `at`; the answer is how many.
fn read_piece(
    img: &[u8],
    g: Geometry,
    i: FileIndex,
    offset: u64,
    out: &mut [u8],
    at: usize,
    n: usize,
) -> usize
    requires opened { Opened img.now g }
    requires g_in_bounds { 512 * volume_sectors g ≤ length img.now }
    requires i_lt_free_file { (i.0 < free_file) × (0 < n) × (offset + n < 2 ^ 63) }
    requires n_in_bounds { at + n ≤ length out.old }
    ensures result_nonzero { (0 < result) × (result ≤ n) }
    ensures out_after { out.new ≡ put out.old at (file_bytes (catalogue_of (view img.now)) (view img.now) i.0 offset result) }
{
    let e = 512 * (g.extent_sectors as u64);
    let start = g.extent_at(table::extent_of(img, g, i, offset / e));
    let within = offset % e;
    let m = (e - within).min(n as u64) as usize;
    fields::copy_bytes(img, (512 * start.0 + within) as usize, out, at, m);
    m
}

// Copies the n bytes of file i from `offset` on to `out` at `at`.
pub fn read_span(
    img: &[u8],
    g: Geometry,
    i: FileIndex,
    offset: u64,
    out: &mut [u8],
    at: usize,
    n: usize,
)
    requires opened { Opened img.now g }
    requires g_in_bounds { 512 * volume_sectors g ≤ length img.now }
    requires i_lt_free_file { (i.0 < free_file) × (offset + n < 2 ^ 63) }
    requires n_in_bounds { at + n ≤ length out.old }
    ensures { out.new ≡ put out.old at (file_bytes (catalogue_of (view img.now)) (view img.now) i.0 offset n) }
{
    if n == 0 {
        return;
    }
    let m = read_piece(img, g, i, offset, out, at, n);
    read_span(img, g, i, offset + m as u64, out, at + m, n - m)
}

// ---- writing

// Where n bytes of the span from its byte `at` on stand in what is lent for it.
fn place_in(bytes: &[u8], len: u64, at: u64, n: u64) -> usize
    requires source { Source bytes.now len }
    requires n_bound { (at + n ≤ len) × (n ≤ 512) }
    ensures n_in_bounds { result + n ≤ length bytes.now }
    ensures n_value { bytes_from bytes.now result n ≡ bytes_from (span_of bytes.now len) at n }
{
    if bytes.len() as u64 == len {
        at as usize
    } else {
        0
    }
}

// File sector s of the span, which stands at `place`: what the span doesn't cover keeps its old bytes, or is 0 where the image ends before it (T-11).
fn put_data_sector(
    list: &mut [u8],
    k: usize,
    img: &[u8],
    place: Sector,
    offset: u64,
    bytes: &[u8],
    len: u64,
    s: u64,
) -> usize
    requires record_size_in_bounds { (k + 1) * record_size ≤ length list.old }
    requires place_bound { 512 * place.0 + 512 < 2 ^ 63 }
    requires touched { Touched offset len s 1 }
    requires source { Source bytes.now len }
    ensures { Emitted list.old k (sector_write place.0 (spliced offset (span_of bytes.now len) s (view img.now place.0)) ∷ []) list.new result }
{
    let base = 512 * s;
    let from = offset.max(base);
    let to = (offset + len).min(base + 512);
    let at = place_in(bytes, len, from - offset, to - from);
    if to - from == 512 {
        return lists::put_from(list, k, place, bytes, at);
    }
    let mut a = fields::shown(img, place);
    fields::copy_bytes(
        bytes,
        at,
        &mut a,
        (from - base) as usize,
        (to - from) as usize,
    );
    lists::put_sector(list, k, place, a)
}

// The n sectors of the span from file sector s on, where they stand one after the other from `start` on.
fn put_piece(
    list: &mut [u8],
    k: usize,
    img: &[u8],
    start: Sector,
    offset: u64,
    bytes: &[u8],
    len: u64,
    s: u64,
    n: u64,
) -> usize
    requires record_size_in_bounds { (k + n) * record_size ≤ length list.old }
    requires n_bound { 512 * (start.0 + n) < 2 ^ 63 }
    requires touched { Touched offset len s n }
    requires source { Source bytes.now len }
    ensures value { result ≡ k + n }
    ensures emitted { Emitted list.old k
        (tabulate (λ x. sector_write (start.0 + (x - s)) (spliced offset (span_of bytes.now len) x (view img.now (start.0 + (x - s))))) s n) list.new result }
{
    let mut at = k;
    for j in 0..n {
        at = put_data_sector(
            list,
            at,
            img,
            Sector(start.0 + j),
            offset,
            bytes,
            len,
            s + j,
        );
    }
    at
}

// The extent of offset o: one of the `held` that file i has, or behind them the next, which is taken.
fn extent_for(img: &[u8], g: Geometry, i: FileIndex, held: u64, next: Extent, o: u64) -> Extent
    requires opened { Opened img.now g }
    requires i_lt_free_file { i.0 < free_file }
    ensures { result.0 ≡ cond (ltb o held) (extent_of (catalogue_of (view img.now)) i.0 o) next.0 }
{
    if o < held {
        table::extent_of(img, g, i, o)
    } else {
        next
    }
}

// Where file sector s stands.
pub fn sector_at(img: &[u8], g: Geometry, i: FileIndex, held: u64, next: Extent, s: u64) -> Sector
    requires opened { Opened img.now g }
    requires lent { Lent img.now i.0 held next.0 }
    ensures result_value { result.0 ≡ file_sector_at (catalogue_of (view img.now)) i.0 s }
    ensures g_bound { 512 * (result.0 + (extent_sectors g - s % extent_sectors g)) < 2 ^ 63 }
{
    let size = g.extent_sectors as u64;
    let start = g.extent_at(extent_for(img, g, i, held, next, s / size));
    Sector(start.0 + s % size)
}

// Those of the n data sectors of the span from file sector s on that lie in one extent, in file order; the answer is how many.
fn put_in_extent(
    list: &mut [u8],
    k: usize,
    img: &[u8],
    g: Geometry,
    i: FileIndex,
    held: u64,
    next: Extent,
    offset: u64,
    bytes: &[u8],
    len: u64,
    s: u64,
    n: u64,
) -> u64
    requires opened { Opened img.now g }
    requires lent { Lent img.now i.0 held next.0 }
    requires record_size_in_bounds { (k + n) * record_size ≤ length list.old }
    requires touched { Touched offset len s n }
    requires source { Source bytes.now len }
    requires n_nonzero { 0 < n }
    ensures result_nonzero { (0 < result) × (result ≤ n) }
    ensures emitted { Emitted list.old k
        (tabulate (data_sector (catalogue_of (view img.now)) i.0 (view img.now) offset (span_of bytes.now len)) s result) list.new (k + result) }
{
    let size = g.extent_sectors as u64;
    let m = (size - s % size).min(n);
    let place = sector_at(img, g, i, held, next, s);
    put_piece(list, k, img, place, offset, bytes, len, s, m);
    m
}

// The n data sectors of the span from file sector s on, in file order.
pub fn put_data(
    list: &mut [u8],
    k: usize,
    img: &[u8],
    g: Geometry,
    i: FileIndex,
    held: u64,
    next: Extent,
    offset: u64,
    bytes: &[u8],
    len: u64,
    s: u64,
    n: u64,
) -> usize
    requires opened { Opened img.now g }
    requires lent { Lent img.now i.0 held next.0 }
    requires record_size_in_bounds { (k + n) * record_size ≤ length list.old }
    requires touched { Touched offset len s n }
    requires source { Source bytes.now len }
    ensures value { result ≡ k + n }
    ensures emitted { Emitted list.old k
        (tabulate (data_sector (catalogue_of (view img.now)) i.0 (view img.now) offset (span_of bytes.now len)) s n) list.new result }
{
    if n == 0 {
        return k;
    }
    let m = put_in_extent(list, k, img, g, i, held, next, offset, bytes, len, s, n);
    put_data(
        list,
        k + m as usize,
        img,
        g,
        i,
        held,
        next,
        offset,
        bytes,
        len,
        s + m,
        n - m,
    )
}
