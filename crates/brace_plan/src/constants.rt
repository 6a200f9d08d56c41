ghost use Rattle.std.specs.Prelude.{◌≡◌, ◌-◌, [], ◌∷◌, drop, length, IfOk, OnOk, OnErr};

use brace_model::Ty;
use brace_num::NoMemory;
use std::alloc::Global;
use std::marker::Model;

/// The constants in scope, with their types. Contracts see them as a list, the latest first.
#[derive(Drop)]
pub struct Constants {
    /// Filled from its end on.
    room: Vec<(u32, Ty)>,
    /// The place of the latest constant.
    first: usize,
}

impl Model for Constants {
    ghost use Rattle.std.specs.Prelude.{List, ℕ, drop, length, ◌≤◌};
    ghost use Rattle.std.specs.Coded.{coded_list, coded×, coded_ℕ};
    ghost use Rattle.brace_model.specs.declared.program.Ty.{Ty};
    ghost use Rattle.brace_model.specs.contracts.program.Ty as ty;

    ghost Value = { List (ℕ × Ty) };

    ghost coded = { coded_list (coded× coded_ℕ ty.the_row.coded) };

    ghost view = { λ constants. drop constants.first constants.room.items };

    ghost invariant = { λ constants. constants.first ≤ length constants.room.items };
}

impl Constants {
    /// No constant, with room for so many.
    pub fn make(alloc: Global, count: usize) -> Result<Constants, NoMemory>
        ensures { IfOk result (λ constants. constants ≡ []) }
    {
        let room = vec![in alloc; (0u32, Ty::Bool); count]?;
        Ok(Constants { room, first: count })
    }

    /// The constants, the latest first.
    pub fn as_slice(&self) -> &[(u32, Ty)]
        ensures { result.now ≡ self.now }
    {
        &self.room[self.first..]
    }

    /// How many constants there are.
    pub fn count(&self) -> usize
        ensures { result ≡ length self.now }
    {
        self.room.len() - self.first
    }

    /// One more constant.
    pub fn declare(&mut self, number: u32, ty: Ty) -> Result<(), NoMemory>
        ensures ok { OnOk result (self.new ≡ (number, ty) ∷ self.old) }
        ensures err { OnErr result (self.new ≡ self.old) }
    {
        if self.first == 0 {
            return Err(NoMemory);
        }
        self.first -= 1;
        self.room[self.first] = (number, ty);
        Ok(())
    }

    /// So many of the constants, the earliest ones.
    pub fn keep(&mut self, count: usize)
        ensures { self.new ≡ drop (length self.old - count) self.old }
    {
        let more = self.count().saturating_sub(count);
        self.first += more;
    }
}
