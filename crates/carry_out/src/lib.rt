// Carrying out a write list: every record is judged before the first is written.
#![tactic(auto)]

ghost use Rattle.std.specs.Prelude.{◌≡◌, false, not, [], ◌∷◌, ◌+◌, ◌*◌, ◌/◌, ◌≤◌, eqb, length, get_or};
ghost use Rattle.model.specs.Search.{any_below, all_below};
ghost use Rattle.model.specs.WriteList.{record_size, stored};
ghost use Rattle.model.specs.Results.{carried_in};
ghost use Rattle.model.specs.CarryOut.{record_in, records_in, bad_record, carry_answer, carry_image};

use model::Refusal;

// ---- the judgement

// Whether one of the 512 bytes from `at` on is not 0: the greatest of them tells, without a test for each.
fn has_other(list: &[u8], at: usize) -> bool
    requires { at + 512 ≤ length list.now }
    ensures { result ≡ not (all_below (λ b. eqb (get_or list.now (at + b) 0) 0) 512) }
{
    list[at..at + 512].iter().fold(0u8, |most, &b| most.max(b)) != 0
}

// Whether record k has another position, is a barrier with other bytes, or lies outside an image of so many sectors.
fn is_bad(list: &[u8], k: usize, sectors: u64) -> bool
    requires { (k + 1) * record_size ≤ length list.now }
    ensures { result ≡ bad_record sectors list.now k }
{
    let at = k * lists::RECORD_SIZE;
    if fields::be64(list, at) != k as u64 {
        return true;
    }
    let s = fields::be64(list, at + lists::NUMBER_START);
    if s == lists::BARRIER.0 {
        has_other(list, at + lists::CONTENTS_START)
    } else {
        sectors <= s
    }
}

// Whether one of the list's records is bad.
fn has_bad(list: &[u8], sectors: u64) -> bool
    ensures { result ≡ any_below (bad_record sectors list.now) (length list.now / record_size) }
{
    (0..list.len() / lists::RECORD_SIZE).any(|k| is_bad(list, k, sectors))
}

// ---- the writes

// Record k is written; a barrier writes nothing.
fn put_record(img: &mut [u8], list: &[u8], k: usize)
    requires record_size_in_bounds { (k + 1) * record_size ≤ length list.now }
    requires k_value { bad_record (length img.old / 512) list.now k ≡ false }
    ensures { img.new ≡ stored (record_in list.now k ∷ []) img.old }
{
    let at = k * lists::RECORD_SIZE;
    let s = fields::be64(list, at + lists::NUMBER_START);
    if s != lists::BARRIER.0 {
        lists::copy_sector(list, at + lists::CONTENTS_START, img, (512 * s) as usize);
    }
}

// All records, in order.
fn put_records(img: &mut [u8], list: &[u8])
    requires { any_below (bad_record (length img.old / 512) list.now) (length list.now / record_size) ≡ false }
    ensures { img.new ≡ stored (records_in list.now) img.old }
{
    for k in 0..list.len() / lists::RECORD_SIZE {
        put_record(img, list, k);
    }
}

// ---- the call

// All writes in order; 1 or 8 leave the image as it is.
pub fn carry_out(img: &mut [u8], list: &[u8]) -> Result<(), Refusal>
    ensures value { carried_in result ≡ carry_answer img.old list.now }
    ensures img_after { img.new ≡ carry_image img.old list.now }
{
    if !volume::is_whole(img.len()) {
        return Err(Refusal::NotWhole);
    }
    if list.len() % lists::RECORD_SIZE != 0 || has_bad(list, (img.len() / 512) as u64) {
        return Err(Refusal::BadArgument);
    }
    put_records(img, list);
    Ok(())
}
