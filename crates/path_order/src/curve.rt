// A curve through all points of the grid, on which points that follow each other lie near each other.
use plane_exact::Point;

// The number of a point along Hilbert's curve. Each two bits of it tell a quarter of the square that the earlier ones leave.
pub fn place_on_curve(point: Point) -> u32 {
    let mut x = (point.x() + 32_768) as u32;
    let mut y = (point.y() + 32_768) as u32;
    let mut place = 0u32;
    for bit in (0..16u32).rev() {
        let right = x >> bit & 1 == 1;
        let upper = y >> bit & 1 == 1;
        place = place << 2 | quarter(right, upper);
        // The curve through a lower quarter is turned, through the right one also the other way round.
        if !upper {
            let (across, up) = if right { (!x, !y) } else { (x, y) };
            x = up;
            y = across;
        }
    }
    place
}

// The quarters in turn.
fn quarter(right: bool, upper: bool) -> u32 {
    match (right, upper) {
        (false, false) => 0,
        (false, true) => 1,
        (true, true) => 2,
        (true, false) => 3,
    }
}
