// `moves`: the moves of a G-code program, a line each, and their number.
ghost use Rattle.std.specs.Prelude.{◌≡◌, ◌++◌, IfOk, IfErr, OnOk, flat_map};
ghost use Rattle.engrave_core.specs.Commands.Moves.{IsDueOfMoves, IsRefusalOfMoves, move_line, moves_text, number_text, spot_text};
ghost use Rattle.engrave_core.specs.Given.{IsReported};
ghost use Rattle.engrave_core.specs.Stored.{AnswersFrom};
ghost use Rattle.engrave_core.specs.Outcome.{outcome_of};

use crate::files::load_code;
use crate::refusal::Refusal;
use grid_num::{Units, write_decimal};
use job_words::Text;
use plane_exact::{LineMove, Spot};
use shop_port::Depot;
use std::alloc::{AllocError, Global};

/// The list of the moves, or the refusal of the program.
pub fn run<D: Depot>(
    alloc: Global,
    code: &Text,
    units: Units,
    depot: &mut D,
) -> Result<Vec<u8>, Refusal>
    ensures value { AnswersFrom D.held D.faults D.misses depot.old depot.new
        (λ files. IsReported (IsDueOfMoves files code.now units)) result }
    ensures refusal { IfErr result (λ refusal. IsRefusalOfMoves (outcome_of refusal)) }
{
    let moves = load_code(alloc, code.as_str(), units, depot)?;
    Ok(list_moves(alloc, &moves)?)
}

/// A line `LINE X,Y,H X,Y,H` for each move, its spots in grid units, and then `moves COUNT`.
#[tactic(auto, unfolding(crate::specs::Commands::Moves::moves_text))]
fn list_moves(alloc: Global, moves: &[LineMove]) -> Result<Vec<u8>, AllocError>
    ensures { IfOk result (λ text. text.items ≡ moves_text moves.now) }
{
    let mut text = list_each(alloc, moves)?;
    let count = moves.len();
    let total = format!(in alloc; "moves {count}\n")?;
    text.extend_from_slice(total.as_bytes())?;
    Ok(text)
}

fn list_each(alloc: Global, moves: &[LineMove]) -> Result<Vec<u8>, AllocError>
    ensures { IfOk result (λ text. text.items ≡ flat_map move_line moves.now) }
{
    let mut text = Vec::new(alloc);
    for line_move in moves {
        push_move(line_move, &mut text)?;
    }
    Ok(text)
}

#[tactic(auto, unfolding(crate::specs::Commands::Moves::move_line))]
fn push_move(line_move: &LineMove, text: &mut Vec<u8>) -> Result<(), AllocError>
    ensures { OnOk result (text.new.items ≡ text.old.items ++ move_line line_move.now) }
{
    write_decimal(i64::from(line_move.line), 1, text)?;
    text.extend_from_slice(b" ")?;
    push_spot(line_move.mv.from, text)?;
    text.extend_from_slice(b" ")?;
    push_spot(line_move.mv.to, text)?;
    text.extend_from_slice(b"\n")
}

/// The spot's coordinates and its height.
#[tactic(auto, unfolding(crate::specs::Commands::Moves::spot_text))]
fn push_spot(spot: Spot, text: &mut Vec<u8>) -> Result<(), AllocError>
    ensures { OnOk result (text.new.items ≡ text.old.items ++ spot_text spot) }
{
    push_number(spot.x, text)?;
    text.extend_from_slice(b",")?;
    push_number(spot.y, text)?;
    text.extend_from_slice(b",")?;
    push_number(spot.h, text)
}

/// The number of grid units that so many tenths are: where it is whole, without its point and last digit.
#[tactic(auto, unfolding(crate::specs::Commands::Moves::number_text))]
fn push_number(tenths: i32, text: &mut Vec<u8>) -> Result<(), AllocError>
    ensures { OnOk result (text.new.items ≡ text.old.items ++ number_text tenths) }
{
    if tenths.unsigned_abs() % 10 == 0 {
        write_decimal(i64::from(tenths / 10), 1, text)
    } else {
        write_decimal(i64::from(tenths), 10, text)
    }
}
