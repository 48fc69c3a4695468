// The walk through a program: what the bit visits for each move.
ghost use Rattle.std.specs.Prelude.{◌≡◌, ◌+◌, ◌<◌, ◌≤◌, ◌^◌, ◌↔◌, ◌++◌, ◌∷◌, [], true, false, length, IsTrue, OnOk};
ghost use Rattle.engrave_model.specs.Drawing.{edges_of};
ghost use Rattle.gcode_text.specs.Visits.{spot_over};
ghost use Rattle.code_repair.specs.Repair.{CanLand, IsStepFrom, lift};
ghost use Rattle.code_repair.specs.Walk.{IsLed};

use crate::visits::Visits;
use depth_rule::{Scene, is_clear};
use plane_exact::{Bit, LineMove, Move, Spot};
use std::alloc::AllocError;

impl Visits {
    /// Goes on by these moves.
    pub fn follow(&mut self, scene: &Scene, bit: &Bit, moves: &[LineMove]) -> Result<(), AllocError>
        requires { self.old.changed + length moves.now < 2 ^ 32 }
        ensures led { OnOk result (IsLed (edges_of scene.now) bit.now self.old moves.now [] self.new) }
        ensures safe { self.new.safe ≡ self.old.safe }
    {
        for line_move in moves {
            self.take(scene, bit, &line_move.mv)?;
        }
        Ok(())
    }

    // Goes on by one move.
    fn take(&mut self, scene: &Scene, bit: &Bit, mv: &Move) -> Result<(), AllocError>
        requires { self.old.changed + 1 < 2 ^ 32 }
        ensures step { OnOk result (IsStepFrom (edges_of scene.now) bit.now self.old.safe self.old.up mv.now self.old.spots.items self.old.changed self.new.spots.items self.new.up self.new.changed) }
        ensures last { OnOk result (self.new.last ≡ mv.now.to) }
        ensures safe { self.new.safe ≡ self.old.safe }
        ensures counted { OnOk result (self.new.changed ≤ self.old.changed + 1) }
    {
        let stays = is_clear(scene, bit, mv);
        if stays {
            self.stay(mv)?;
        } else if self.can_land(scene, bit, mv.to) {
            self.hop(mv)?;
        } else {
            self.hover(mv)?;
        }
        Ok(())
    }

    // The move stays as it is.
    fn stay(&mut self, mv: &Move) -> Result<(), AllocError>
        ensures visited { OnOk result (self.new.spots.items ≡ self.old.spots.items ++ mv.now.to ∷ []) }
        ensures down { OnOk result (self.new.up ≡ false) }
        ensures last { OnOk result (self.new.last ≡ mv.now.to) }
        ensures unchanged { self.new.changed ≡ self.old.changed }
        ensures safe { self.new.safe ≡ self.old.safe }
    {
        self.spots.push(mv.to)?;
        self.up = false;
        self.last = mv.to;
        Ok(())
    }

    // Over to the move's end at the safe height, and down.
    fn hop(&mut self, mv: &Move) -> Result<(), AllocError>
        requires { self.old.changed + 1 < 2 ^ 32 }
        ensures visited { OnOk result (self.new.spots.items ≡ self.old.spots.items ++ (lift self.old.up self.old.safe mv.now.from ++ spot_over self.old.safe mv.now.to.at ∷ mv.now.to ∷ [])) }
        ensures down { OnOk result (self.new.up ≡ false) }
        ensures last { OnOk result (self.new.last ≡ mv.now.to) }
        ensures counted { OnOk result (self.new.changed ≡ self.old.changed + 1) }
        ensures safe { self.new.safe ≡ self.old.safe }
    {
        self.hover(mv)?;
        self.spots.push(mv.to)?;
        self.up = false;
        Ok(())
    }

    // Over to the move's end at the safe height, where the bit stays up.
    fn hover(&mut self, mv: &Move) -> Result<(), AllocError>
        requires { self.old.changed + 1 < 2 ^ 32 }
        ensures visited { OnOk result (self.new.spots.items ≡ self.old.spots.items ++ (lift self.old.up self.old.safe mv.now.from ++ spot_over self.old.safe mv.now.to.at ∷ [])) }
        ensures up { OnOk result (self.new.up ≡ true) }
        ensures last { OnOk result (self.new.last ≡ mv.now.to) }
        ensures counted { OnOk result (self.new.changed ≡ self.old.changed + 1) }
        ensures safe { self.new.safe ≡ self.old.safe }
    {
        if !self.up {
            self.rise(mv.from)?;
        }
        self.rise(mv.to)?;
        self.up = true;
        self.last = mv.to;
        self.changed += 1;
        Ok(())
    }

    /// To the safe height over the spot.
    pub fn rise(&mut self, spot: Spot) -> Result<(), AllocError>
        ensures visited { OnOk result (self.new.spots.items ≡ self.old.spots.items ++ spot_over self.old.safe spot.at ∷ []) }
        ensures up { self.new.up ≡ self.old.up }
        ensures last { self.new.last ≡ self.old.last }
        ensures changed { self.new.changed ≡ self.old.changed }
        ensures safe { self.new.safe ≡ self.old.safe }
    {
        let above = self.over(spot);
        self.spots.push(above)?;
        Ok(())
    }

    // Whether the bit can be set down on the spot: it isn't below the surface, or the way straight down is clear.
    fn can_land(&self, scene: &Scene, bit: &Bit, spot: Spot) -> bool
        ensures { IsTrue result ↔ CanLand (edges_of scene.now) bit.now self.now.safe spot }
    {
        let drop = Move {
            from: self.over(spot),
            to: spot,
        };
        spot.depth() == 0 || is_clear(scene, bit, &drop)
    }

    // The spot at the safe height over this one.
    fn over(&self, spot: Spot) -> Spot
        ensures { result ≡ spot_over self.now.safe spot.at }
    {
        Spot {
            x: spot.x,
            y: spot.y,
            h: (10 * self.safe) as i32,
        }
    }
}
