// A G-code program that is judged as its bytes come, without memory.
ghost use Rattle.std.specs.Prelude.{◌≡◌, ◌≤◌, ◌<◌, ◌+◌, ◌++◌, ◌∷◌, [], List, ℕ, length, take};
ghost use Rattle.plane_exact.specs.Cone.{Cone};
ghost use Rattle.plane_exact.specs.declared.point.Seg.{Seg};
ghost use Rattle.engrave_model.specs.Drawing.{edges_of};
ghost use Rattle.gcode_text.specs.Moves.{moves_of};
ghost use Rattle.engrave_core.specs.Judging.{IsJudgedCode, IsJudgedTo};

use depth_rule::Scene;
use gcode_text::{CodeFault, MOST_CODE_BYTES, Stepper, Turn};
use gouge_checker::{Verdict, next_verdict};
use grid_num::Units;
use plane_exact::Bit;

/// A G-code program as far as it is judged.
// It never stops early: behind a fault of the code and behind its end the stepper reports nothing more, and a verdict that isn't
// `Clear` stands.
#[derive(Drop)]
pub struct Judged {
    stepper: Stepper,
    // The verdict on the moves that were reported, and how many they are.
    verdict: Verdict,
    count: u32,
    ghost few: { count ≤ stepper.fed },
}

impl Judged {
    /// Nothing of the program has come yet.
    pub fn new(units: Units) -> Judged
        ensures units { result.stepper.units ≡ units }
        ensures fed { result.stepper.fed ≡ 0 }
        ensures judged { (edges : List Seg) (cone : Cone) → IsJudgedTo edges cone [] result.stepper result.verdict result.count }
    {
        Judged {
            stepper: Stepper::new(units),
            verdict: Verdict::Clear,
            count: 0,
        }
    }

    /// Takes the next bytes of the program.
    pub fn take_all(&mut self, scene: &Scene, bit: &Bit, piece: &[u8])
        requires room { self.old.stepper.fed + length piece.now ≤ MOST_CODE_BYTES }
        ensures units { self.new.stepper.units ≡ self.old.stepper.units }
        ensures fed { self.new.stepper.fed ≡ self.old.stepper.fed + length piece.now }
        ensures judged { (bytes : List ℕ) → IsJudgedTo (edges_of scene.now) bit.now bytes self.old.stepper self.old.verdict self.old.count
            → IsJudgedTo (edges_of scene.now) bit.now (bytes ++ piece.now) self.new.stepper self.new.verdict self.new.count }
    {
        let mut at = 0;
        while at < piece.len() {
            at += self.take_some(scene, bit, &piece[at..]);
        }
    }

    // Takes some of the next bytes, and says how many: of the line at once where there is room, or one.
    fn take_some(&mut self, scene: &Scene, bit: &Bit, piece: &[u8]) -> usize
        requires some { 0 < length piece.now }
        requires room { self.old.stepper.fed + length piece.now ≤ MOST_CODE_BYTES }
        ensures some { 0 < result }
        ensures within { result ≤ length piece.now }
        ensures units { self.new.stepper.units ≡ self.old.stepper.units }
        ensures fed { self.new.stepper.fed ≡ self.old.stepper.fed + result }
        ensures judged { (bytes : List ℕ) → IsJudgedTo (edges_of scene.now) bit.now bytes self.old.stepper self.old.verdict self.old.count
            → IsJudgedTo (edges_of scene.now) bit.now (bytes ++ take result piece.now) self.new.stepper self.new.verdict self.new.count }
    {
        let len = self.stepper.take_line(piece);
        if len > 0 {
            return len;
        }
        self.take(scene, bit, piece[0]);
        1
    }

    // Takes the next byte.
    fn take(&mut self, scene: &Scene, bit: &Bit, byte: u8)
        requires room { self.old.stepper.fed < MOST_CODE_BYTES }
        ensures units { self.new.stepper.units ≡ self.old.stepper.units }
        ensures fed { self.new.stepper.fed ≡ self.old.stepper.fed + 1 }
        ensures judged { (bytes : List ℕ) → IsJudgedTo (edges_of scene.now) bit.now bytes self.old.stepper self.old.verdict self.old.count
            → IsJudgedTo (edges_of scene.now) bit.now (bytes ++ byte ∷ []) self.new.stepper self.new.verdict self.new.count }
    {
        match self.stepper.byte(byte) {
            Turn::Moved(mv) => {
                self.verdict = next_verdict(scene, bit, self.verdict, &mv);
                self.count += 1;
            }
            // The stepper keeps the fault, and its end gives it.
            Turn::Nothing | Turn::Failed(_) => {}
        }
    }

    /// The verdict on the moves of the whole program, and how many they are; or the first fault of its code.
    pub fn end(self, scene: &Scene, bit: &Bit) -> Result<(Verdict, u32), CodeFault>
        ensures { (bytes : List ℕ) → IsJudgedTo (edges_of scene.now) bit.now bytes self.stepper self.verdict self.count
            → IsJudgedCode (edges_of scene.now) bit.now (moves_of self.stepper.units bytes) result }
    {
        let Judged {
            stepper,
            verdict,
            count,
        } = self;
        match stepper.end()? {
            Some(mv) => Ok((next_verdict(scene, bit, verdict, &mv), count + 1)),
            None => Ok((verdict, count)),
        }
    }
}
