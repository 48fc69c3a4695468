// Numbers that follow from a start, for random drawings and programs.

// The next number from -reach to reach of a sequence.
pub fn next(state: &mut u64, reach: i32) -> i32 {
    *state = state
        .wrapping_mul(6_364_136_223_846_793_005)
        .wrapping_add(1_442_695_040_888_963_407);
    let count = reach.wrapping_mul(2).wrapping_add(1).max(1) as u64;
    (((*state >> 33) % count) as i32).wrapping_sub(reach)
}
