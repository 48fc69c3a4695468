// Bands of edges as they are filled.
ghost use Rattle.std.specs.Prelude.{◌≡◌, ◌≤◌, ◌&&◌, nat_le, nat_lt, [], length, map, replicate, vec_len, IfOk, OnOk};
ghost use Rattle.evenodd_region.specs.Layouts.{IsAdded};

use plane_exact::Seg;
use std::alloc::{AllocError, Global};

// Counts one more from `first` to below `end`.
pub(crate) fn count_one(counts: &mut [u32], first: usize, end: usize)
    requires { end ≤ length counts.old }
{
    for band in first..end {
        counts[band] = counts[band].saturating_add(1);
    }
}

// Bands without edges, each with room for so many.
pub(crate) fn empty_bands(alloc: Global, rooms: &[u32]) -> Result<Vec<Vec<Seg>>, AllocError>
    ensures count { IfOk result (λ bands. vec_len bands ≡ length rooms.now) }
    ensures empty { IfOk result (λ bands. map (λ band. band.items) bands.items ≡ replicate (length rooms.now) []) }
{
    let mut bands = Vec::with_capacity(alloc, rooms.len())?;
    for room in rooms {
        bands.push(Vec::with_capacity(alloc, *room as usize)?)?;
    }
    Ok(bands)
}

// Adds the edge to the bands from `first` to below `end`.
pub(crate) fn add(
    bands: &mut Vec<Vec<Seg>>,
    edge: &Seg,
    first: usize,
    end: usize,
) -> Result<(), AllocError>
    requires some { first ≤ end }
    requires within { end ≤ vec_len bands.old }
    ensures count { OnOk result (vec_len bands.new ≡ vec_len bands.old) }
    ensures added { OnOk result (IsAdded edge.now (λ k. nat_le first k && nat_lt k end) (map (λ band. band.items) bands.old.items) (map (λ band. band.items) bands.new.items)) }
{
    for band in first..end {
        bands[band].push(*edge)?;
    }
    Ok(())
}
