// The magic number of a PBM file, and how it packs its pixels.
ghost use Rattle.std.specs.Prelude.{◌≡◌, IfNone, IfSome};
ghost use Rattle.pbm_edges.specs.Pbm.{magic_of};

/// How a PBM file writes its pixels.
#[derive(Clone, Copy)]
pub(crate) enum Packing {
    /// A digit each, as `P1` says.
    Plain,
    /// Eight to a byte, as `P4` says.
    Packed,
}

/// The packing that the magic number says, and the text behind it; None where there is no magic number.
#[tactic(auto, unfolding(crate::specs::Pbm::magic_of))]
pub(crate) fn read_magic(bytes: &[u8]) -> Option<(Packing, &[u8])>
    ensures none { IfNone result (magic_of bytes.now ≡ None) }
    ensures some { IfSome result (λ found. magic_of bytes.now ≡ Some (found.0, found.1.now)) }
{
    match bytes {
        [b'P', b'1', text @ ..] => Some((Packing::Plain, text)),
        [b'P', b'4', text @ ..] => Some((Packing::Packed, text)),
        _ => None,
    }
}
