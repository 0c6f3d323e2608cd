// Floors and levels of single cells. A call's numbers stay apart, since each is refused as itself.
ghost use Rattle.std.specs.Prelude.{◌≡◌, vec_len, MatchResult};
ghost use Rattle.card.specs.Cells.{NoSpot, Spot, Floored, Worn, Drifted};

use super::Page;
use crate::refusals::Refusal;

impl Page {
    /// The level as a byte, if the cell and the level are there.
    fn spot(&self, cell: usize, level: usize, size: u8) -> Result<u8, Refusal>
        ensures { MatchResult result (λ v. (v ≡ level) × Spot (vec_len self.now.floors) size cell level) (NoSpot (vec_len self.now.floors) size cell level) }
    {
        if cell >= self.floors.len() {
            return Err(Refusal::NoCell { cell });
        }
        match u8::try_from(level) {
            Ok(given) if given < size => Ok(given),
            _ => Err(Refusal::NoLevel { level }),
        }
    }

    /// Takes a bench floor: the cell's level becomes the floor.
    pub(crate) fn floor(&mut self, cell: usize, floor: usize, size: u8) -> Result<(), Refusal>
        ensures cells { Floored (vec_len self.old.floors) size cell floor self.old.floors.items self.old.levels.items result self.new.floors.items self.new.levels.items }
        ensures taken { self.new.taken ≡ self.old.taken }
    {
        let level = self.spot(cell, floor, size)?;
        self.floors[cell] = level;
        self.levels[cell] = level;
        Ok(())
    }

    /// Takes a wear note: the floor rises or stays, and so does the level with it.
    pub(crate) fn wear(&mut self, cell: usize, floor: usize, size: u8) -> Result<(), Refusal>
        ensures cells { Worn (vec_len self.old.floors) size cell floor self.old.floors.items self.old.levels.items result self.new.floors.items self.new.levels.items }
        ensures taken { self.new.taken ≡ self.old.taken }
    {
        let given = self.spot(cell, floor, size)?;
        let higher = self.floors[cell].max(given);
        let level = self.levels[cell].max(higher);
        self.floors[cell] = higher;
        self.levels[cell] = level;
        Ok(())
    }

    /// Takes a drift note: the level changes, but not to one below the floor.
    pub(crate) fn drift(&mut self, cell: usize, level: usize, size: u8) -> Result<(), Refusal>
        ensures cells { Drifted (vec_len self.old.floors) size cell level self.old.floors.items self.old.levels.items result self.new.floors.items self.new.levels.items }
        ensures taken { self.new.taken ≡ self.old.taken }
    {
        let given = self.spot(cell, level, size)?;
        if given < self.floors[cell] {
            return Err(Refusal::BelowFloor { cell });
        }
        self.levels[cell] = given;
        Ok(())
    }
}
