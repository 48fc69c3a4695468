// The ways between points, and their products.
ghost use Rattle.std.specs.Prelude.{◌≡◌, ◌<◌, ◌^◌, pos, ◌*ℤ◌};
ghost use Rattle.integer_algebra.specs.Ranges.{IsUpTo};

/// The way from one point to another: what is added to the two coordinates, each from `-MOST` to `MOST`.
#[derive(Clone, Copy)]
pub struct Way<const MOST: u64> {
    pub x: i64,
    pub y: i64,
    ghost most: { MOST < 2 ^ 63 },
    ghost across: { IsUpTo (pos MOST) x },
    ghost up: { IsUpTo (pos MOST) y },
}

impl<const MOST: u64> Way<MOST> {
    ghost use Rattle.std.specs.Prelude.{◌≡◌, ◌*◌, ◌<◌, ◌^◌, pos, ◌+ℤ◌, ◌-ℤ◌, ◌*ℤ◌};
    ghost use Rattle.integer_algebra.specs.Ranges.{IsUpTo, IsWithin};
    ghost use Rattle.plane_exact.specs.Distance.{square};

    /// Above 0 where `other` turns left of this way, 0 where they lie on one line. 64 bits must hold what it may be.
    pub fn cross<const OTHER: u64>(self, other: Way<OTHER>) -> i64
        requires { 2 * (MOST * OTHER) < 2 ^ 63 }
        ensures value { result ≡ self.entry.x *ℤ other.entry.y -ℤ self.entry.y *ℤ other.entry.x }
        ensures range { IsUpTo (pos (2 * (MOST * OTHER))) result }
    {
        self.x * other.y - self.y * other.x
    }

    /// Above 0 where the ways make an angle below a right one. 64 bits must hold what it may be.
    pub fn dot<const OTHER: u64>(self, other: Way<OTHER>) -> i64
        requires { 2 * (MOST * OTHER) < 2 ^ 63 }
        ensures value { result ≡ self.entry.x *ℤ other.entry.x +ℤ self.entry.y *ℤ other.entry.y }
        ensures range { IsUpTo (pos (2 * (MOST * OTHER))) result }
    {
        self.x * other.x + self.y * other.y
    }

    /// The square of its length. 64 bits must hold what it may be.
    pub fn length_squared(self) -> i64
        requires { 2 * (MOST * MOST) < 2 ^ 63 }
        ensures value { result ≡ square self.entry.x +ℤ square self.entry.y }
        ensures range { IsWithin (pos 0) (pos (2 * (MOST * MOST))) result }
    {
        self.x * self.x + self.y * self.y
    }

    /// The cross product of ways so long that it takes 128 bits.
    pub fn wide_cross<const OTHER: u64>(self, other: Way<OTHER>) -> i128
        ensures { result ≡ self.entry.x *ℤ other.entry.y -ℤ self.entry.y *ℤ other.entry.x }
    {
        product(self.x, other.y) - product(self.y, other.x)
    }

    /// The dot product of such ways.
    pub fn wide_dot<const OTHER: u64>(self, other: Way<OTHER>) -> i128
        ensures { result ≡ self.entry.x *ℤ other.entry.x +ℤ self.entry.y *ℤ other.entry.y }
    {
        product(self.x, other.x) + product(self.y, other.y)
    }
}

fn product(u: i64, v: i64) -> i128
    ensures { result ≡ u *ℤ v }
{
    u as i128 * v as i128
}
