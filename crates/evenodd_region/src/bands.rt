// Edges by bands of rows, so that a point is asked of the edges near its row alone.
//
// Whatever the layout, the answers stay right: all that is proved of it is that each row has a band, and that a higher row
// has no lower one (`mono_number` in proofs/InBand.antt). So an edge that a row needs lies in the row's band. Who changes the
// layout has to look at time and memory: how many edges a band has, and how many bands an edge.
ghost use Rattle.std.specs.Prelude.{◌≤◌};

use crate::fill::{add, count_one, empty_bands};
use plane_exact::Seg;
use std::alloc::{AllocError, Global};

// How rows are divided into bands. All have one height, so that a row's band is found by one division, without a search; what
// is below the first belongs to it, and what is above the last to that.
#[derive(Clone, Copy, Debug)]
pub(crate) struct Layout {
    pub low: i32,
    pub height: u32,
    pub count: u32,
    ghost some_rows: { 1 ≤ height },
    ghost some_bands: { 1 ≤ count },
}

impl Layout {
    ghost use Rattle.std.specs.Prelude.{◌≡◌, ◌+◌, ◌<◌, ◌≤◌, ◌-ℤ◌, min, max, map, IfOk, vec_len};
    ghost use Rattle.evenodd_region.specs.Layouts.{banded};
    ghost use Rattle.evenodd_region.specs.Lookup.{AreBandsOf, band_number, or_zero};

    // The layout for these edges, from their lowest row on. An edge lies in at most two bands more than its height has whole
    // bands: where bands are higher than a sixth of what the edges rise on average, it lies in at most eight on average. And
    // there are at most as many bands as edges.
    pub(crate) fn of(edges: &[Seg]) -> Layout {
        let Some(first) = edges.first() else {
            return Layout {
                low: 0,
                height: 1,
                count: 1,
            };
        };
        let mut low = first.a.y();
        let mut high = low;
        let mut rows = 0u64;
        for e in edges {
            let (a, b) = (e.a.y(), e.b.y());
            low = low.min(a.min(b));
            high = high.max(a.max(b));
            rows = rows.saturating_add(u64::from(a.abs_diff(b)));
        }
        let span = high.abs_diff(low);
        let mean = rows / edges.len() as u64;
        let least = u64::from(span) / edges.len() as u64;
        let height = (mean / 6).max(least).min(65_535) as u32 + 1;
        Layout {
            low,
            height,
            count: (span / height).saturating_add(1),
        }
    }

    // The number of the band that the row belongs to.
    pub(crate) fn band_of(self, row: i32) -> usize
        ensures number { result ≡ band_number self.low self.height self.count row }
        ensures within { result < self.count }
    {
        (self.rows_below(row) / self.height).min(self.count - 1) as usize
    }

    // How many rows from the first on are below this one.
    fn rows_below(self, row: i32) -> u32
        ensures { result ≡ or_zero (row -ℤ self.low) }
    {
        if row <= self.low {
            0
        } else {
            row.abs_diff(self.low)
        }
    }

    // The first band that the edge lies in, and the one behind its last.
    fn span(self, e: Seg) -> (usize, usize)
        ensures first { result.0 ≡ min (band_number self.low self.height self.count e.a.y) (band_number self.low self.height self.count e.b.y) }
        ensures end { result.1 ≡ max (band_number self.low self.height self.count e.a.y) (band_number self.low self.height self.count e.b.y) + 1 }
        ensures ordered { result.0 ≤ result.1 }
        ensures within { result.1 ≤ self.count }
    {
        let a = self.band_of(e.a.y());
        let b = self.band_of(e.b.y());
        (a.min(b), a.max(b) + 1)
    }

    // How many of the edges lie in each band, so that no band takes more memory than its edges need, and none is moved as it
    // grows. Nothing but memory and time hangs on it.
    fn rooms(self, alloc: Global, edges: &[Seg]) -> Result<Vec<u32>, AllocError>
        ensures { IfOk result (λ rooms. vec_len rooms ≡ self.count) }
    {
        let mut rooms = vec![in alloc; 0; self.count as usize]?;
        for e in edges {
            let (first, end) = self.span(*e);
            count_one(&mut rooms, first, end);
        }
        Ok(rooms)
    }

    // The edges by their bands.
    pub(crate) fn bands(self, alloc: Global, edges: &[Seg]) -> Result<Vec<Vec<Seg>>, AllocError>
        ensures count { IfOk result (λ bands. vec_len bands ≡ self.count) }
        ensures each { IfOk result (λ bands. AreBandsOf (banded self (map (λ band. band.items) bands.items)) edges.now) }
    {
        let rooms = self.rooms(alloc, edges)?;
        let mut bands = empty_bands(alloc, &rooms)?;
        for e in edges {
            let (first, end) = self.span(*e);
            add(&mut bands, e, first, end)?;
        }
        Ok(bands)
    }
}
