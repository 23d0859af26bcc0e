// Entry i of a journal sector. The source is the copy and the target the true place.
ghost use Rattle.std.specs.Prelude.{◌≡◌, ◌+◌, ◌*◌, ◌≤◌, ◌++◌, length};
ghost use Rattle.model.specs.Bytes.{number_in, be_bytes, put};
ghost use Rattle.model.specs.Journal.{journal_field};

const SIZE: usize = 16;

const TARGET: usize = 8;

// Of both numbers; the first stands at the entry's start.
const WIDTH: usize = 8;

pub fn source(s: &[u8], i: usize) -> u64
    requires { 16 * i + 16 ≤ length s.now }
    ensures { result ≡ number_in s.now (journal_field (16 * i)).source }
{
    fields::be(s, SIZE * i, WIDTH)
}

pub fn target(s: &[u8], i: usize) -> u64
    requires { 16 * i + 16 ≤ length s.now }
    ensures { result ≡ number_in s.now (journal_field (16 * i)).target }
{
    fields::be(s, SIZE * i + TARGET, WIDTH)
}

pub fn put(s: &mut [u8], i: usize, source: u64, target: u64)
    requires { 16 * i + 16 ≤ length s.old }
    ensures { s.new ≡ put s.old (16 * i) (be_bytes 8 source ++ be_bytes 8 target) }
{
    fields::put_be(s, SIZE * i, WIDTH, source);
    fields::put_be(s, SIZE * i + TARGET, WIDTH, target);
}
