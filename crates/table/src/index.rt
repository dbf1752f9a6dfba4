// The index: by its bytes, each key falls into a bucket, of which there are as many as records. The last record of
// bucket n is told by record n, and each record tells the one before it in its own bucket.
ghost use Rattle.std.specs.Prelude.{◌≡◌, ◌≤◌, ◌<◌};
ghost use Rattle.ground.specs.Limits.{limits};
ghost use Rattle.table.specs.Inner.Index.{stirred, bucket_of};
ghost use Rattle.table.specs.Inner.Records.{byte_at};

use crate::record::KEY;

// How many values a hash has, and by how many of its bits it is turned.
const HASHES: usize = 1 << u32::BITS;

const TURN_BITS: u32 = 17;

// What is multiplied by for each four bytes of a key: an odd number whose bits are spread.
const FACTOR: u32 = 1_640_531_527;

// A hash with four bytes of a key more in it. A product carries bits upwards only, so the hash is turned before: its
// highest bits become its lowest.
fn stirred(hash: u32, part: u32) -> u32
    ensures { result ≡ stirred hash part }
{
    hash.rotate_right(TURN_BITS)
        .wrapping_add(part)
        .wrapping_mul(FACTOR)
}

// The bucket of a key, of so many buckets, by the highest bits of its hash.
pub(crate) fn bucket_of(key: &[u8; KEY], buckets: usize) -> usize
    requires { (1 ≤ buckets) × (buckets ≤ limits.records) }
    ensures { (result ≡ bucket_of buckets (byte_at key.now)) × (result < buckets) }
{
    let mut hash = 0;
    for part in key.as_chunks().0 {
        hash = stirred(hash, u32::from_le_bytes(*part));
    }
    hash as usize * buckets / HASHES
}
