// Messages in a page.
ghost use Rattle.std.specs.Prelude.{◌≡◌, ◌||◌, is_ok, IfOk};
ghost use Rattle.masking.specs.Writing.{WrittenAs};
ghost use Rattle.card.specs.Words.{Blank, FetchedAs};

use super::Page;
use crate::refusals::Refusal;
use code::Code;
use masking::{read, write};
use std::alloc::{AllocError, Global};

impl Page {
    /// A page of floors and levels 0 that has taken no message.
    pub(crate) fn blank(heap: Global, cells: usize) -> Result<Page, AllocError>
        ensures { IfOk result (Blank cells) }
    {
        let floors = vec![in heap; 0u8; cells]?;
        let levels = vec![in heap; 0u8; cells]?;
        Ok(Page {
            floors,
            levels,
            taken: false,
        })
    }

    /// Writes a message into the page's levels.
    pub(crate) fn save<C: Code>(
        &mut self,
        code: &C,
        allowance: usize,
        message: &[u8],
    ) -> Result<(u8, usize), masking::Refusal>
        ensures levels { WrittenAs (C.Code.meaning code.now) self.old.floors.items allowance message.now self.old.levels.items result self.new.levels.items }
        ensures floors { self.new.floors.items ≡ self.old.floors.items }
        ensures taken { self.new.taken ≡ (is_ok result || self.old.taken) }
    {
        let answer = write(
            code,
            self.floors.as_slice(),
            allowance,
            message,
            self.levels.as_mut_slice(),
        )?;
        self.taken = true;
        Ok(answer)
    }

    /// Reads the page's message into the buffer, unless the page is blank.
    pub(crate) fn fetch<C: Code>(
        &self,
        code: &C,
        page: usize,
        message: &mut [u8],
    ) -> Result<usize, Refusal>
        ensures { FetchedAs (C.Code.meaning code.now) self.now.taken page self.now.levels.items message.old result message.new }
    {
        if !self.taken {
            return Err(Refusal::Blank { page });
        }
        Ok(read(code, self.levels.as_slice(), message)?)
    }
}
