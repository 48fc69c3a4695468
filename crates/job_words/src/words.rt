// The words of a command, into a request.
ghost use Rattle.std.specs.Prelude.{◌≡◌, IfOk, Some, None, Err, map, string_bytes};
ghost use Rattle.job_words.specs.Request.{request_of, IsInRange};

use crate::commands::{
    carve, check, contacts, cover, flat, flatten, moves, probe, repair, strokes, trial,
};
use crate::fault::WordsFault;
use crate::request::Request;
use std::alloc::Global;

/// What the words of a command ask for: the command's name, and then its options.
///
/// An option is `--name=value` or `--name value`, at most once; the order is free. A value that begins with
/// `-` needs the `=`, except a lone `-`. Nothing else may stand among the words, except `--` as the last one. Each
/// value has to be in its form and range. A number is an optional `-` and one to nine digits.
// If you change this: a command is one arm here. What a word means stands in its definition, and `law` says which words
// are accepted for sure; a stricter reading breaks that law, and a laxer one the clause `accepted`.
#[tactic(auto, unfolding(crate::specs::Request::request_of))]
pub fn read_words(alloc: Global, words: &[String]) -> Result<Request, WordsFault>
    ensures accepted { IfOk result (λ r. request_of (map string_bytes words.now) ≡ Some r) }
    ensures range { IfOk result IsInRange }
    ensures usage { result ≡ Err WordsFault.Usage → request_of (map string_bytes words.now) ≡ None }
{
    let name = words.first().ok_or(WordsFault::Usage)?.as_str();
    if name == "probe" {
        probe::read(alloc, words)
    } else if name == "moves" {
        moves::read(alloc, words)
    } else if name == "check" {
        check::read(alloc, words)
    } else if name == "contacts" {
        contacts::read(alloc, words)
    } else if name == "carve" {
        carve::read(alloc, words)
    } else if name == "cover" {
        cover::read(alloc, words)
    } else if name == "flatten" {
        flatten::read(alloc, words)
    } else if name == "trial" {
        trial::read(alloc, words)
    } else if name == "strokes" {
        strokes::read(alloc, words)
    } else if name == "repair" {
        repair::read(alloc, words)
    } else if name == "flat" {
        flat::read(alloc, words)
    } else {
        Err(WordsFault::Usage)
    }
}
