// A record by its place in the table.

ghost use Rattle.std.specs.Prelude.{◌≡◌, ◌<◌, ◌≤◌, ℕ, true, false, length, slice_index, slice_index_or, count_by};
ghost use Rattle.lt_rec.specs.Record.{IsRecord};
ghost use Rattle.lt_rec.specs.Boxes.{is_below};
ghost use Rattle.lt_block.specs.Reading.{records_in, IsRead};
ghost use Rattle.lt_block.specs.Below.{below_at};

use bytes::Bytes;
use lt_rec::{Cut, RecView};

pub fn offset_in(offsets: &[u32], i: u64) -> usize
    requires { i < length offsets.now }
    ensures { result ≡ slice_index offsets.now i }
{
    offsets[i as usize] as usize
}

pub fn record_in<'a>(bytes: &'a Bytes, offsets: &Vec<u32>, i: u64) -> RecView<'a>
    requires table { IsRead bytes.now offsets.now.items }
    requires within { i < length (records_in bytes.now) }
    ensures value { slice_index_or (records_in bytes.now) i result ≡ result }
    ensures lawful { IsRecord result }
{
    let (_, rest) = bytes.as_slice().split_at(offset_in(offsets.as_slice(), i));
    RecView::first_in(rest)
}

/// The number of records below a cut. The keys rise, so these are the first ones.
pub fn seek_in(bytes: &Bytes, offsets: &Vec<u32>, cut: &Cut) -> u64
    requires table { IsRead bytes.now offsets.now.items }
    ensures exact { result ≡ count_by (λ r. is_below cut.now r.key) (records_in bytes.now) }
{
    let mut low = 0;
    let mut high = count_in(bytes, offsets);
    while low < high {
        let middle = low + (high - low) / 2;
        if is_below_at(bytes, offsets, cut, middle) {
            low = middle + 1;
        } else {
            high = middle;
        }
    }
    low
}

fn count_in(bytes: &Bytes, offsets: &Vec<u32>) -> u64
    requires table { IsRead bytes.now offsets.now.items }
    ensures exact { result ≡ length (records_in bytes.now) }
{
    offsets.as_slice().len() as u64
}

fn is_below_at(bytes: &Bytes, offsets: &Vec<u32>, cut: &Cut, i: u64) -> bool
    requires table { IsRead bytes.now offsets.now.items }
    requires within { i < length (records_in bytes.now) }
    ensures below { result ≡ true → (k : ℕ) → k ≤ i → below_at cut.now (records_in bytes.now) k ≡ true }
    ensures not_below { result ≡ false → (k : ℕ) → i ≤ k → k < length (records_in bytes.now) → below_at cut.now (records_in bytes.now) k ≡ false }
{
    cut.below(record_in(bytes, offsets, i).key())
}
