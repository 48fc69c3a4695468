// The top call: a command's words in, its outcome and its whole text out.
ghost use Rattle.std.specs.Prelude.{◌≡◌, ◌⊎◌, map, string_bytes, IfSome, IfOk};
ghost use Rattle.job_words.specs.Request.{request_of};
ghost use Rattle.shop_port.specs.Counts.{Rose};
ghost use Rattle.shop_port.specs.Output.{Appended, AppendedPart};
ghost use Rattle.engrave_core.specs.Due.{AsksForNoFile, IsAnswer, IsDue, IsGoodText, IsGoodRepairRun, IsSafeRun, IsTrueEngraving, IsTrueMilling, IsTrueReport, IsTrueRun};
ghost use Rattle.engrave_core.specs.Stored.{IsCaused};
ghost use Rattle.engrave_core.specs.Line.{line_of};
ghost use Rattle.engrave_core.specs.Outcome.{IfAnswered, IfRefused, HasText};
ghost use Rattle.engrave_core.specs.Top.{Writes, WritesDue, WritesPart, WritesPartOfReadFault};

use crate::commands::answer;
use crate::line::line_of_refusal;
use crate::outcome::Outcome;
use crate::refusal::Refusal;
use shop_port::{Depot, Sink, WriteFault, send};
use std::alloc::{AllocError, Global};

/// What a command comes to before anything is written.
#[derive(Drop)]
struct Reply {
    outcome: Outcome,
    text: Vec<u8>,
}

/// Runs a command: reads its words and files, makes the whole text, and writes it.
///
/// The words don't include the program's own name. A refusal writes its one line; running out of memory writes nothing;
/// where the output fails, a front part of the text was written.
// If you change this: a new command changes no clause here, only what is due for it; where its `Done` says more than its text, it
// adds one. A clause is never weakened to let a body pass; where the outside may do one more thing, it gets a clause of its own that
// names the cause.
pub fn engrave<D: Depot, S: Sink>(
    alloc: Global,
    words: &[String],
    depot: &mut D,
    out: &mut S,
) -> Outcome
    // A G-code program that is called clear removes no point outside the drawing, at any moment of any move.
    ensures safe { IfSome (D.held depot.old) (λ files. result ≡ Outcome.Done → IsSafeRun files (request_of (map string_bytes words.now))) }

    // A G-code program that is written is called clear for its drawing and bit, removes no point outside the drawing, at any moment of
    // any move, and goes, for each contact, as deep as fits at the centre of its greatest disc. The points that it prints as uncut are
    // exactly those inside the drawing, of the report's distance, that no moment of it removes.
    ensures carved { IfSome (D.held depot.old) (λ files. result ≡ Outcome.Done →
        Writes (IsGoodText files (request_of (map string_bytes words.now))) (S.written out.old) (S.written out.new)) }

    // And so are the points that are printed as uncut by a G-code program of anybody's.
    ensures covered { IfSome (D.held depot.old) (λ files. result ≡ Outcome.Done →
        Writes (IsTrueReport files (request_of (map string_bytes words.now))) (S.written out.old) (S.written out.new)) }

    // A G-code program that is written for strokes removes a point, at any rational place, at some moment of some move, exactly where the
    // point is within the bit's radius, at the depth, of a stroke; and the numbers that it prints are those of the points that it cuts, and
    // of all points, round the strokes at the report's distance.
    ensures engraved { IfSome (D.held depot.old) (λ files. result ≡ Outcome.Done →
        Writes (IsTrueEngraving files (request_of (map string_bytes words.now))) (S.written out.old) (S.written out.new)) }

    // A G-code program that is written for a flat bit removes, at any moment of any move, no other material, at the surface or below it,
    // than the conical bit might remove from a place inside at an allowed depth without touching an edge. The points of the floor that it
    // prints as left are exactly those, of the report's distance, that no moment of it at the floor's depth sweeps.
    ensures milled { IfSome (D.held depot.old) (λ files. result ≡ Outcome.Done →
        Writes (IsTrueMilling files (request_of (map string_bytes words.now))) (S.written out.old) (S.written out.new)) }

    // A G-code program that is repaired is called clear for its drawing and bit, removes no point, at any moment of any move, that the
    // stored one doesn't remove, and has the clear moves of that in their order; none is changed exactly where the stored one is called
    // clear.
    ensures repaired { IfSome (D.held depot.old) (λ files. result ≡ Outcome.Done →
        Writes (IsGoodRepairRun files (request_of (map string_bytes words.now))) (S.written out.old) (S.written out.new)) }

    // The verdict is exact: a program that is called clear is fit, and one that isn't isn't; where it is called a gouge or
    // outside, a moment of a move of the named line removes a point that isn't inside, for a gouge a point of the named edge.
    ensures exact { IfSome (D.held depot.old) (λ files. IsTrueRun files (request_of (map string_bytes words.now)) result) }

    // What the words and the files decide is what is due, and its whole text is written.
    ensures due { IfSome (D.held depot.old) (λ files. IfAnswered result
        (WritesDue (map string_bytes words.now) files result (S.written out.old) (S.written out.new))) }

    // Where nothing of the outside failed, the outcome is the one that is due, or memory ran out.
    ensures complete { IfSome (D.held depot.old) (λ files.
        ¬ Rose (D.faults depot.old) (D.faults depot.new) → ¬ Rose (S.faults out.old) (S.faults out.new) →
        (result ≡ Outcome.Memory)
        ⊎ WritesDue (map string_bytes words.now) files result (S.written out.old) (S.written out.new)) }

    // The answers that there are to words, whatever the files have; where the words aren't accepted, or are about no file, none is asked for.
    ensures answers { IsAnswer (request_of (map string_bytes words.now)) result }
    ensures untouched { AsksForNoFile (request_of (map string_bytes words.now)) → depot.new ≡ depot.old }

    // A refusal writes its own line and nothing else.
    ensures refused { IfRefused result (Appended (S.written out.old) (S.written out.new) (line_of result)) }

    // Faults of the outside have their cause there.
    ensures caused { IsCaused (D.faults depot.old) (D.faults depot.new) (D.misses depot.old) (D.misses depot.new) result }
    ensures write_fault { result ≡ Outcome.WriteFault → Rose (S.faults out.old) (S.faults out.new) }
    ensures cut_short { IfSome (D.held depot.old) (λ files. result ≡ Outcome.WriteFault →
        WritesPart (map string_bytes words.now) files (S.written out.old) (S.written out.new)
        ⊎ WritesPartOfReadFault (S.written out.old) (S.written out.new) (D.faults depot.old) (D.faults depot.new)) }

    // Running out of memory writes nothing.
    ensures memory { result ≡ Outcome.Memory → S.written out.new ≡ S.written out.old }

    // The files stay as they were.
    ensures unchanged { D.held depot.new ≡ D.held depot.old }
{
    match decide(alloc, words, depot) {
        Ok(reply) => write(reply, out),
        Err(AllocError) => Outcome::Memory,
    }
}

/// Makes the outcome and the whole text, before anything is written.
// The result is nested, since running out of memory has no text: it is an `Err`, and every other outcome a reply.
fn decide<D: Depot>(alloc: Global, words: &[String], depot: &mut D) -> Result<Reply, AllocError>
    ensures due { IfSome (D.held depot.old) (λ files. IfOk result (λ reply. IfAnswered reply.outcome
        (IsDue (map string_bytes words.now) files reply.outcome reply.text.items))) }
    ensures refused { IfOk result (λ reply. IfRefused reply.outcome (reply.text.items ≡ line_of reply.outcome)) }
    ensures writes { IfOk result (λ reply. HasText reply.outcome) }
    ensures answers { IfOk result (λ reply. IsAnswer (request_of (map string_bytes words.now)) reply.outcome) }
    ensures caused { IfOk result (λ reply. IsCaused (D.faults depot.old) (D.faults depot.new) (D.misses depot.old) (D.misses depot.new) reply.outcome) }
    ensures untouched { AsksForNoFile (request_of (map string_bytes words.now)) → depot.new ≡ depot.old }
    ensures unchanged { D.held depot.new ≡ D.held depot.old }
{
    match answer(alloc, words, depot) {
        Ok(text) => Ok(Reply {
            outcome: Outcome::Done,
            text,
        }),
        Err(Refusal::Memory) => Err(AllocError),
        Err(refusal) => {
            let line = line_of_refusal(alloc, &refusal)?;
            Ok(Reply {
                outcome: Outcome::from(refusal),
                text: line.into_bytes(),
            })
        }
    }
}

/// Writes the whole text of a reply.
fn write<S: Sink>(reply: Reply, out: &mut S) -> Outcome
    requires { HasText reply.outcome }
    ensures written { result ≡ reply.outcome → Appended (S.written out.old) (S.written out.new) reply.text.items }
    ensures cut_short { result ≡ Outcome.WriteFault → AppendedPart (S.written out.old) (S.written out.new) reply.text.items }
    ensures write_fault { result ≡ Outcome.WriteFault → Rose (S.faults out.old) (S.faults out.new) }
    ensures either { (result ≡ reply.outcome) ⊎ (result ≡ Outcome.WriteFault) }
{
    match send(out, reply.text.as_slice()) {
        Ok(()) => reply.outcome,
        Err(WriteFault) => Outcome::WriteFault,
    }
}
