// An entry of the allocation table, from byte `at` on.
ghost use Rattle.std.specs.Prelude.{◌≡◌, ◌+◌, ◌*◌, ◌<◌, ◌≤◌, length};
ghost use Rattle.model.specs.Bytes.{number_in, put};
ghost use Rattle.model.specs.Table.{free_file, table_field, table_entry_bytes};

const SIZE: usize = 4;

pub const OFFSET: usize = 2;

// Of both numbers; the first stands at the entry's start.
const WIDTH: usize = 2;

pub fn file(s: &[u8], at: usize) -> u64
    requires { at + 4 ≤ length s.now }
    ensures value { result ≡ number_in s.now (table_field at).file }
    ensures upper_bound { result < 65536 }
{
    fields::be(s, at, WIDTH)
}

// The offset in the file, counted in extents.
pub fn offset(s: &[u8], at: usize) -> u64
    requires { at + 4 ≤ length s.now }
    ensures value { result ≡ number_in s.now (table_field at).offset }
    ensures upper_bound { result < 65536 }
{
    fields::be(s, at + OFFSET, WIDTH)
}

pub fn put(s: &mut [u8], at: usize, file: u64, offset: u64)
    requires { at + 4 ≤ length s.old }
    ensures { s.new ≡ put s.old at (table_entry_bytes file offset) }
{
    fields::put_be(s, at, WIDTH, file);
    fields::put_be(s, at + OFFSET, WIDTH, offset);
}

// Entry k of a table sector becomes 65535, 65535.
pub fn free(s: &mut [u8], k: usize)
    requires { 4 * k + 4 ≤ length s.old }
    ensures { s.new ≡ put s.old (4 * k) (table_entry_bytes free_file 65535) }
{
    put(s, SIZE * k, model::FREE_FILE, 65535);
}
