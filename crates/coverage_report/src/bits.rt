// The bits of a row of points.
ghost use Rattle.std.specs.Prelude.{◌≡◌, ℕ, ◌<◌, ◌+◌, ◌*◌, ◌/◌, ◌==◌, length};
ghost use Rattle.evenodd_region.specs.RowBits.{IsSetIn};
ghost use Rattle.coverage_report.specs.Rows.{is_set_in, set_points};

use crate::row::Row;
use lane_kernels::count_ones;

/// Whether the bit of this number is 1.
pub fn is_set(bits: &[u64], i: u32) -> bool
    requires { i < 64 * length bits.now }
    ensures { result ≡ is_set_in bits.now i }
{
    bits[(i / 64) as usize] >> (i % 64) & 1 == 1
}

/// How many points of the row have bits that are 1; the bits behind those of its points are 0.
pub fn count_set(row: &Row, bits: &[u64]) -> u64
    requires words { length bits.now ≡ (row.now.count + 63) / 64 }
    requires behind { (i : ℕ) → IsSetIn bits.now i → i < row.now.count }
    ensures { result ≡ length (set_points bits.now row.now) }
{
    // its range, by which the words are few enough
    let _count = row.count;
    count_ones(bits)
}
