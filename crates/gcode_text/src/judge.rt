// Judges the words of a line in turn, from the left.
ghost use Rattle.std.specs.Prelude.{◌≡◌, ◌≤◌, ◌==◌, if◌then◌else◌, pos, neg_ℤ, true, false, codes, MatchResult};
ghost use Rattle.grid_num.specs.Judging.{and_then};
ghost use Rattle.gcode_text.specs.Grammar.{empty_block, in_range, is_among, is_one_of, judge_g, judge_m, judge_other, judge_unused, judge_word, judge_words, line_words, tenths_of};
ghost use Rattle.gcode_text.specs.Words.{word_of};

use crate::block::{Block, Tenths};
use crate::fault::CodeKind;
use crate::words::{Word, first_word};
use grid_num::{Decimal, Units};

/// The block of a text without comments and blanks, or the first fault among its words.
// The functions of a word are written out where they are called, here and for a plain line: apart they would hand the block and the number
// over in memory.
// If you change this: each function here equals one definition of `specs/Grammar.antt`, with the order of the faults of a word: its
// letter, the form of its number, a second use of the letter, a number off the grid, one out of range. Change the definition first. None
// needs an answer by hand, so what differs from it is reported at the function of the word.
pub fn judge(units: Units, text: &[u8]) -> Result<Block, CodeKind>
    ensures { result ≡ judge_words units empty_block (line_words text.now) }
{
    let mut block = Block::empty();
    let mut rest = text;
    while let Some((word, behind)) = first_word(rest) {
        block = judged_word(units, block, word)?;
        rest = behind;
    }
    Ok(block)
}

// The block with one more word.
fn judged_word(units: Units, block: Block, word: Word<'_>) -> Result<Block, CodeKind>
    ensures { result ≡ judge_word units block (word_of word.entry) }
{
    if !is_letter(word.letter) {
        return Err(CodeKind::Word);
    }
    let number = Decimal::read(word.number).map_err(|_| CodeKind::Number)?;
    judged_number(units, block, word.letter, &number)
}

/// Whether the byte is a letter of the profile.
pub fn is_letter(byte: u8) -> bool
    ensures { result ≡ is_among (codes "NGMXYZFSP") byte }
{
    matches!(
        byte,
        b'N' | b'G' | b'M' | b'X' | b'Y' | b'Z' | b'F' | b'S' | b'P'
    )
}

/// The block with one more word, of a letter of the profile and a number.
#[inline(always)]
pub fn judged_number(
    units: Units,
    block: Block,
    letter: u8,
    number: &Decimal,
) -> Result<Block, CodeKind>
    ensures { result ≡ (if letter == 71 then judge_g units block number.now else if letter == 77 then judge_m block number.now else judge_other units block letter number.now) }
{
    match letter {
        b'G' => judged_g(units, block, number),
        b'M' => judged_m(block, number),
        letter => judged_other(units, block, letter, number),
    }
}

#[inline(always)]
fn judged_g(units: Units, block: Block, number: &Decimal) -> Result<Block, CodeKind>
    ensures { result ≡ judge_g units block number.now }
{
    if is_any(number, &[0, 10]) {
        if block.motion {
            return Err(CodeKind::Twice);
        }
        return Ok(Block {
            motion: true,
            ..block
        });
    }
    if number.is_tenths(200) {
        return if units.is_inch() {
            Ok(block)
        } else {
            Err(CodeKind::Units)
        };
    }
    if number.is_tenths(210) {
        return if units.is_inch() {
            Err(CodeKind::Units)
        } else {
            Ok(block)
        };
    }
    if number.is_tenths(910) {
        return Err(CodeKind::Incremental);
    }
    if is_any(number, &[170, 400, 490, 540, 610, 640, 800, 900, 911, 940]) {
        return Ok(block);
    }
    Err(CodeKind::Word)
}

#[inline(always)]
fn judged_m(block: Block, number: &Decimal) -> Result<Block, CodeKind>
    ensures { result ≡ judge_m block number.now }
{
    if is_any(number, &[20, 300]) {
        return Ok(Block {
            last: true,
            ..block
        });
    }
    if is_any(number, &[30, 40, 50, 70, 80, 90]) {
        return Ok(block);
    }
    Err(CodeKind::Word)
}

#[inline(always)]
fn judged_other(units: Units, block: Block, letter: u8, number: &Decimal) -> Result<Block, CodeKind>
    ensures { result ≡ judge_other units block letter number.now }
{
    match letter {
        b'X' => {
            once(block.x.is_some())?;
            let x = Some(read_ranged(units, number)?);
            Ok(Block { x, ..block })
        }
        b'Y' => {
            once(block.y.is_some())?;
            let y = Some(read_ranged(units, number)?);
            Ok(Block { y, ..block })
        }
        b'Z' => {
            once(block.z.is_some())?;
            let z = Some(read_ranged(units, number)?);
            Ok(Block { z, ..block })
        }
        _ => judged_unused(block, letter),
    }
}

// A word of N, F, S or P, whose number is without effect.
#[inline(always)]
fn judged_unused(block: Block, letter: u8) -> Result<Block, CodeKind>
    ensures { result ≡ judge_unused block letter }
{
    match letter {
        b'N' => {
            once(block.n)?;
            Ok(Block { n: true, ..block })
        }
        b'F' => {
            once(block.f)?;
            Ok(Block { f: true, ..block })
        }
        b'S' => {
            once(block.s)?;
            Ok(Block { s: true, ..block })
        }
        _ => {
            once(block.p)?;
            Ok(Block { p: true, ..block })
        }
    }
}

// Refuses a letter that stood before.
fn once(stood: bool) -> Result<(), CodeKind>
    ensures { MatchResult result (λ _. stood ≡ false) (λ kind. (stood ≡ true) × (kind ≡ CodeKind.Twice)) }
{
    if stood { Err(CodeKind::Twice) } else { Ok(()) }
}

// Whether the number is one of these, in tenths.
fn is_any(number: &Decimal, tenths: &[u32]) -> bool
    ensures { result ≡ is_one_of tenths.now number.now }
{
    tenths.iter().any(|tenth| number.is_tenths(*tenth))
}

// The number as a coordinate or a height: the type that is asked for has its range.
#[inline(always)]
fn read_ranged<const BELOW: u32>(units: Units, number: &Decimal) -> Result<Tenths<BELOW>, CodeKind>
    requires { BELOW ≤ 327680 }
    ensures { result ≡ and_then (tenths_of units number.now) (in_range (neg_ℤ (pos BELOW)) (pos 327670)) }
{
    let tenths = read_tenths(units, number)?;
    Tenths::new(tenths).ok_or(CodeKind::OutOfRange)
}

// The number in tenths of a grid unit.
#[inline(always)]
fn read_tenths(units: Units, number: &Decimal) -> Result<i128, CodeKind>
    ensures { result ≡ tenths_of units number.now }
{
    number
        .times_scale(10 * units.per_unit())
        .map_err(|_| CodeKind::OffGrid)
}
