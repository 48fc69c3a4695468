// What a link is worth. A law is the contract of a function that does nothing.
ghost use Rattle.link_split.specs.Law.{LinkLeadsLaw, SameLinkLaw};

/// A link to a node that is as deep as fits ends there, each straight step of it is a clear move, and each node on the way is
/// as deep as fits.
pub fn link_leads_law()
    ensures { LinkLeadsLaw }
{}

/// Two nodes have one link.
pub fn same_link_law()
    ensures { SameLinkLaw }
{}
