// The contacts of a drawing, listed.
ghost use Rattle.std.specs.Prelude.{◌≡◌, ◌+◌, ◌≤◌, ◌++◌, MatchResult, IfErr, IfOk, OnOk, All, length, sum_by};
ghost use Rattle.std.specs.List.{AllZip};
ghost use Rattle.plane_exact.specs.Cone.{IsFromOneTo};
ghost use Rattle.engrave_model.specs.Drawing.{edges_of};
ghost use Rattle.tangent_disc.specs.Contacts.{AreContacts, IsContactFault, IsContactOf, IsPieces, contacts_along, contacts_of};
ghost use Rattle.tangent_disc.specs.Pieces.{IsPiecesFault};

use crate::contact::{Contact, ContactFault, MOST_CONTACTS, MOST_PIECES, MOST_STEP};
use crate::pieces::pieces_of;
use engrave_model::MOST_EDGES;
use loops_text::Drawing;
use plane_exact::Seg;
use std::alloc::{AllocFailed, Global};

/// The contacts of a drawing, edge by edge, where the step between them is at most `step`, from 1 to 32,767 grid units.
///
/// The error is the first edge that is divided into more than 8192 pieces, else that there are more than 1,048,576 contacts; or at any
/// time that memory ran out.
pub fn contacts(alloc: Global, d: &Drawing, step: u32) -> Result<Vec<Contact>, ContactFault>
    requires { IsFromOneTo MOST_STEP step }
    ensures value { MatchResult result (λ cs. AreContacts d.now step cs.items) (IsContactFault d.now step) }
    ensures each { IfOk result (λ cs. All (IsContactOf d.now) cs.items) }
{
    let pieces = all_pieces(alloc, d.all_edges(), step)?;
    let count = contacts_count(&pieces);
    if count > MOST_CONTACTS {
        return Err(ContactFault::TooMany);
    }
    listed(alloc, d, &pieces, count)
}

// The number of pieces of each edge, or the first edge that has too many.
fn all_pieces(alloc: Global, edges: &[Seg], step: u32) -> Result<Vec<u32>, ContactFault>
    requires step { IsFromOneTo MOST_STEP step }
    requires few { length edges.now ≤ MOST_EDGES }
    ensures divided { IfOk result (λ pieces. AllZip (IsPieces step) edges.now pieces.items) }
    ensures coarse { IfOk result (λ pieces. All (IsFromOneTo MOST_PIECES) pieces.items) }
    ensures fault { IfErr result (IsPiecesFault edges.now step) }
{
    let mut pieces = Vec::with_capacity(alloc, edges.len())?;
    for (e, edge) in edges.iter().enumerate() {
        let n = pieces_of(edge, step);
        if n > MOST_PIECES {
            return Err(ContactFault::StepTooFine(e as u32));
        }
        pieces.push(n)?;
    }
    Ok(pieces)
}

// The number of contacts, one more than pieces for each edge.
fn contacts_count(pieces: &[u32]) -> u32
    requires few { length pieces.now ≤ MOST_EDGES }
    requires coarse { All (IsFromOneTo MOST_PIECES) pieces.now }
    ensures { result ≡ sum_by (λ n. n + 1) pieces.now }
{
    let mut count = 0;
    for n in pieces {
        count += *n + 1;
    }
    count
}

// The contacts of all edges, for the number of pieces of each; `count` is their number.
fn listed(
    alloc: Global,
    d: &Drawing,
    pieces: &[u32],
    count: u32,
) -> Result<Vec<Contact>, ContactFault>
    requires all { length pieces.now ≡ length (edges_of d.now) }
    requires few { length pieces.now ≤ MOST_EDGES }
    requires coarse { All (IsFromOneTo MOST_PIECES) pieces.now }
    ensures value { IfOk result (λ cs. cs.items ≡ contacts_of d.now pieces.now) }
    ensures fault { IfErr result (λ fault. fault ≡ ContactFault.Memory) }
{
    let mut contacts = Vec::with_capacity(alloc, count as usize)?;
    for (e, n) in pieces.iter().enumerate() {
        let edge = e as u32;
        append_contacts(&mut contacts, d.loop_of(edge), edge, *n)?;
    }
    Ok(contacts)
}

// Appends the contacts of one edge.
fn append_contacts(
    contacts: &mut Vec<Contact>,
    loop_no: u32,
    edge: u32,
    n: u32,
) -> Result<(), AllocFailed<Contact>>
    requires { n ≤ MOST_PIECES }
    ensures { OnOk result (contacts.new.items ≡ contacts.old.items ++ contacts_along loop_no edge n) }
{
    for k in 0..n + 1 {
        contacts.push(Contact {
            loop_no,
            edge,
            k,
            n,
        })?;
    }
    Ok(())
}
