// The least number found so far.
ghost use Rattle.std.specs.Prelude.{◌↔◌, IsTrue};
ghost use Rattle.depth_rule.specs.Least.{AtMost};

/// Whether there is one, and it isn't above `k`.
pub fn is_at_most(least: Option<u32>, k: u32) -> bool
    ensures { IsTrue result ↔ AtMost least k }
{
    match least {
        Some(e) => e <= k,
        None => false,
    }
}
