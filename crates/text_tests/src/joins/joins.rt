// Loose segments and the loops that they become, worked by hand from the rule.
ghost use Rattle.std.specs.Prelude.{◌≢◌, All};

use engrave_model::MOST_EDGES;
use loop_join::{JoinFault, join, join_law};
use loops_text::{Drawing, read_loops};
use plane_exact::{Point, Seg, is_same_point};
use std::alloc::{AllocError, Global};
use std::test::Fail;

// Segments, one a line from its a to its b, with the loops that they become, or the point at which they are open.
const SEGMENTS: [(&str, &str); 9] = [
    ("", ""),
    // the sides of a square in some order and in some directions
    (
        "100,0 0,0\n0,100 100,100\n0,0 0,100\n100,0 100,100\n",
        "100,0 0,0 0,100 100,100\n",
    ),
    // three sides of a square
    ("0,0 100,0\n100,0 100,100\n100,100 0,100\n", "open 0,0"),
    // the first point of odd degree is a segment's b
    ("0,0 1,0\n1,0 0,0\n1,0 2,2\n", "open 1,0"),
    // the borders of the black cells of a checkerboard of two rows and two columns, the upper left one black
    (
        "100,200 0,200\n0,100 100,100\n200,100 100,100\n100,0 200,0\n0,200 0,100\n100,100 100,200\n100,100 100,0\n200,0 200,100\n",
        "100,200 0,200 0,100 100,100 200,100 200,0 100,0 100,100\n",
    ),
    // a loop that passes a point of degree six three times
    (
        "1,0 1,1\n1,1 0,0\n0,0 -1,0\n-1,0 -1,1\n-1,1 0,0\n0,0 0,-1\n0,-1 1,-1\n1,-1 0,0\n0,0 1,0\n",
        "1,0 1,1 0,0 -1,0 -1,1 0,0 0,-1 1,-1 0,0\n",
    ),
    // three loops that begin at a point of degree six
    (
        "0,0 1,0\n0,0 -1,0\n0,0 0,-1\n1,0 1,1\n1,1 0,0\n-1,0 -1,1\n-1,1 0,0\n0,-1 1,-1\n1,-1 0,0\n",
        "0,0 1,0 1,1\n0,0 -1,0 -1,1\n0,0 0,-1 1,-1\n",
    ),
    // two squares that share a corner
    (
        "0,0 1,0\n1,0 1,1\n1,1 0,1\n0,1 0,0\n1,1 2,1\n2,1 2,2\n2,2 1,2\n1,2 1,1\n",
        "0,0 1,0 1,1 0,1\n1,1 2,1 2,2 1,2\n",
    ),
    // the same segment twice
    ("0,0 5,0\n0,0 5,0\n", "0,0 5,0\n"),
];

#[test]
fn joins_as_the_rule_says(rt: HostRuntime) -> Result<(), Fail> {
    join_law();
    for (segments, want) in SEGMENTS.iter() {
        assert!(rt; segments.len() < 200);
        let given = read_loops(rt.alloc(), segments.as_bytes())
            .ok()
            .expect(&rt, "segments");
        let sides = sides_of(rt.alloc(), &given)?;
        let answer = described(rt.alloc(), joined(rt.alloc(), &sides))?;
        assert_eq!(rt; answer.as_str(), *want, "at {segments:?}");
    }
    Ok(())
}

// The four sides of each of 32,768 squares: first a side of each of them, then the next one.
#[test]
fn joins_131072_segments(rt: HostRuntime) -> Result<(), Fail> {
    let mut sides = Sides {
        segs: Vec::new(rt.alloc()),
    };
    for n in 0..131_072 {
        let a = corner(n % 32_768, n / 32_768).expect(&rt, "a");
        let b = corner(n % 32_768, n / 32_768 + 1).expect(&rt, "b");
        sides.push(a, b)?;
    }
    let loops = joined(rt.alloc(), &sides).map(|drawing| drawing.loops());
    assert_eq!(rt; loops, Ok(32_768));
    Ok(())
}

// The corner of a square. There are 256 squares in a row, and their corners are counted to the left round.
fn corner(square: u32, corner: u32) -> Option<Point> {
    let (right, up) = match corner % 4 {
        0 => (0, 0),
        1 => (3, 0),
        2 => (3, 3),
        _ => (0, 3),
    };
    let x = 4 * (square % 256) + right;
    let y = 4 * (square / 256 % 256) + up;
    Point::new(i64::from(x), i64::from(y))
}

// Segments whose ends differ.
#[derive(Drop)]
struct Sides {
    segs: Vec<Seg>,
    ghost apart: { All (λ s. s.a ≢ s.b) segs.items },
}

impl Sides {
    fn push(&mut self, a: Point, b: Point) -> Result<(), AllocError> {
        if !is_same_point(a, b) {
            self.segs.push(Seg { a, b })?;
        }
        Ok(())
    }
}

// The loops of two points as segments.
fn sides_of(alloc: Global, given: &Drawing) -> Result<Sides, AllocError> {
    let mut sides = Sides {
        segs: Vec::new(alloc),
    };
    for i in 0..given.loops() {
        if let [a, b] = given.points(i) {
            sides.push(*a, *b)?;
        }
    }
    Ok(sides)
}

// As `join` says, where there aren't too many.
fn joined(alloc: Global, sides: &Sides) -> Result<Drawing, JoinFault> {
    if sides.segs.len() > MOST_EDGES as usize {
        return Err(JoinFault::Memory);
    }
    join(alloc, &sides.segs)
}

// The loops as lines of points, or the fault.
fn described(alloc: Global, answer: Result<Drawing, JoinFault>) -> Result<String, AllocError> {
    match answer {
        Ok(drawing) => outline(alloc, &drawing),
        Err(fault) => fault_text(alloc, fault),
    }
}

fn fault_text(alloc: Global, fault: JoinFault) -> Result<String, AllocError> {
    match fault {
        JoinFault::Open(point) => {
            let x = point.x();
            let y = point.y();
            format!(in alloc; "open {x},{y}")
        }
        JoinFault::Memory => format!(in alloc; "memory"),
    }
}

fn outline(alloc: Global, drawing: &Drawing) -> Result<String, AllocError> {
    let mut lines = String::new(alloc);
    for i in 0..drawing.loops() {
        let mut before = "";
        for point in drawing.points(i) {
            let x = point.x();
            let y = point.y();
            write!(lines, "{before}{x},{y}")?;
            before = " ";
        }
        lines.push('\n')?;
    }
    Ok(lines)
}
