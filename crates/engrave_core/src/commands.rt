// What the words' command gives: the text that it writes, or the refusal.
ghost use Rattle.std.specs.Prelude.{◌≡◌, IfOk, IfErr, Some, map, string_bytes};
ghost use Rattle.plane_exact.specs.Cone.{IsCone};
ghost use Rattle.job_words.specs.Request.{IsInRange, request_of};
ghost use Rattle.engrave_core.specs.Commands.{IsDueOfRequest, IsRefusalOfRequest};
ghost use Rattle.engrave_core.specs.Due.{AsksForNoFile, IsAccepted, IsDue, IsRefusalOfWords};
ghost use Rattle.engrave_core.specs.Given.{IsReported, cone_of};
ghost use Rattle.engrave_core.specs.Stored.{AnswersFrom};
ghost use Rattle.engrave_core.specs.Outcome.{outcome_of};

mod carve;
mod check;
mod contacts;
mod cover;
mod flat;
mod flatten;
mod moves;
mod probe;
mod repair;
mod strokes;
mod trial;

use self::flat::{Milling, lines_of};
use crate::refusal::Refusal;
use gcode_text::Job;
use job_words::{Request, read_words};
use plane_exact::Bit;
use shop_port::Depot;
use std::alloc::Global;

/// The text that the words' command writes, or the refusal.
pub fn answer<D: Depot>(alloc: Global, words: &[String], depot: &mut D) -> Result<Vec<u8>, Refusal>
    ensures value { AnswersFrom D.held D.faults D.misses depot.old depot.new
        (λ files. IsReported (IsDue (map string_bytes words.now) files)) result }
    ensures refusal { IfErr result (λ refusal. IsRefusalOfWords (request_of (map string_bytes words.now)) (outcome_of refusal)) }
    ensures accepted { IfOk result (λ _. IsAccepted (map string_bytes words.now)) }
    ensures untouched { AsksForNoFile (request_of (map string_bytes words.now)) → depot.new ≡ depot.old }
{
    let request = read_words(alloc, words)?;
    run(alloc, &request, depot)
}

/// The text that the request's command writes, or the refusal.
fn run<D: Depot>(alloc: Global, request: &Request, depot: &mut D) -> Result<Vec<u8>, Refusal>
    requires { IsInRange request.now }
    ensures value { AnswersFrom D.held D.faults D.misses depot.old depot.new
        (λ files. IsReported (IsDueOfRequest files request.now)) result }
    ensures refusal { IfErr result (λ refusal. IsRefusalOfRequest request.now (outcome_of refusal)) }
    ensures untouched { AsksForNoFile (Some request.now) → depot.new ≡ depot.old }
{
    match request {
        Request::Probe {
            shape,
            at,
            bit,
            rmax,
            limit,
        } => probe::run(alloc, shape, *at, &bit_of(*bit, *rmax), *limit, depot),
        Request::Moves { code, units } => moves::run(alloc, code, *units, depot),
        Request::Check {
            shape,
            code,
            bit,
            rmax,
        } => check::run(alloc, shape, code, &bit_of(*bit, *rmax), depot),
        Request::Contacts { shape, step, rmax } => contacts::run(alloc, shape, *step, *rmax, depot),
        Request::Carve {
            shape,
            bit,
            rmax,
            step,
            limit,
            safe,
            feed,
            pitch,
            pocket,
            over,
        } => {
            let job = Job {
                units: shape.units,
                safe: *safe,
                feed: *feed,
                bit: bit_of(*bit, *rmax),
                limit: *limit,
                step: *step,
            };
            carve::run(
                alloc,
                shape,
                &job,
                *pitch,
                carve::pocket_of(*pocket, *over),
                depot,
            )
        }
        Request::Cover {
            shape,
            code,
            bit,
            rmax,
            pitch,
        } => cover::run(alloc, shape, code, &bit_of(*bit, *rmax), *pitch, depot),
        Request::Flat {
            shape,
            bit,
            rmax,
            radius,
            limit,
            over,
            safe,
            feed,
            pitch,
            pocket,
        } => {
            let job = Job {
                units: shape.units,
                safe: *safe,
                feed: *feed,
                bit: bit_of(*bit, *rmax),
                limit: *limit,
                step: 1,
            };
            let milling = Milling {
                radius: *radius,
                over: *over,
                way: lines_of(*pocket),
            };
            flat::run(alloc, shape, &job, &milling, *pitch, depot)
        }
        Request::Flatten { shape } => flatten::run(alloc, shape, depot),
        Request::Strokes {
            shape,
            bit,
            rmax,
            depth,
            safe,
            feed,
            pitch,
        } => {
            let job = Job {
                units: shape.units,
                safe: *safe,
                feed: *feed,
                bit: bit_of(*bit, *rmax),
                limit: *depth,
                step: 1,
            };
            strokes::run(alloc, shape, &job, *depth, *pitch, depot)
        }
        Request::Trial { count } => trial::run(alloc, *count),
        Request::Repair {
            shape,
            code,
            bit,
            rmax,
            safe,
            feed,
        } => repair::run(
            alloc,
            shape,
            code,
            &bit_of(*bit, *rmax),
            *safe,
            *feed,
            depot,
        ),
    }
}

/// The bit of a slope and its greatest radius.
fn bit_of(bit: (u32, u32), rmax: u32) -> Bit
    requires { IsCone bit.0 bit.1 rmax }
    ensures { result ≡ cone_of bit rmax }
{
    Bit::new(bit.0, bit.1, rmax).unwrap()
}
