ghost use Rattle.std.specs.Prelude.{◌≡◌, ◌+◌, take, length, OnOk};
ghost use Rattle.brace_names.specs.Scopes.{Scope, outermost, is_query, is_taken, class_number, field_in, read, read_own, of_loop, inside, past, declaring};
ghost use Rattle.brace_names.specs.Tables.{look};

use crate::declared::{Classes, Field, next};
use crate::names::Names;
use brace_model::Ty;
use brace_num::NoMemory;
use brace_syntax::{Ident, MemberTree};
use std::alloc::Global;
use std::marker::Model;

/// A constant by its number in its class, with its type, or a loop variable by the number of loops
/// that its loop stands in, with the number of the class looped over where there is one of the
/// name.
#[derive(Clone, Copy, Drop)]
pub enum Local {
    Constant(u32, Ty),
    Loop(u32, Option<u32>),
}

/// What `n` or `this.n` stands for in an expression: a constant by its number in its class, with
/// its type, or a field of the class.
#[derive(Clone, Copy, Drop)]
pub enum Named {
    Constant(u32, Ty),
    Field(Field),
}

/// What `q.n` stands for: the number of loops that the variable's loop stands in, the number of the
/// class looped over, and the field of it.
#[derive(Clone, Copy, Drop)]
pub struct LoopField {
    pub loops: u32,
    pub class: u32,
    pub field: Field,
}

/// A class as its members see it: what the script declares, the number of the class, and its
/// fields.
#[derive(Drop)]
pub struct Home<'s, 'a> {
    pub known: &'s Classes<'a>,
    pub number: u32,
    pub own: &'s Names<'a, Field>,
}

impl<'s, 'a> Model for Home<'s, 'a> {
    ghost use Rattle.brace_names.specs.Scopes.{Home};

    ghost Value = { Home };

    ghost view = { λ h. record { known = h.known.now; number = h.number; own = h.own.now } };
}

/// What is in scope at a place.
#[derive(Drop)]
pub struct Scope<'h, 's, 'a> {
    home: &'h Home<'s, 'a>,
    in_query: bool,
    locals: Names<'a, Local>,
    loops: u32,
    constants: u32,
}

impl<'h, 's, 'a> Model for Scope<'h, 's, 'a> {
    ghost use Rattle.brace_names.specs.Scopes.{Scope};

    ghost Value = { Scope };

    ghost view = { λ s. record {
      home = s.home.now;
      in_query = s.in_query;
      locals = s.locals;
      loops = s.loops;
      constants = s.constants;
    } };
}

// Whether the member is the query of its class.
fn is_query(member: &MemberTree) -> bool
    ensures { result ≡ is_query member.now }
{
    match member {
        MemberTree::Run(_, _) => true,
        _ => false,
    }
}

impl<'h, 's, 'a> Scope<'h, 's, 'a> {
    /// The scope outside all blocks of a member of a class.
    pub fn of(alloc: Global, home: &'h Home<'s, 'a>, member: &MemberTree) -> Scope<'h, 's, 'a>
        ensures { result ≡ outermost home.now (is_query member.now) }
    {
        Scope::outermost(alloc, home, is_query(member))
    }

    // The scope outside all blocks of a class.
    fn outermost(alloc: Global, home: &'h Home<'s, 'a>, in_query: bool) -> Scope<'h, 's, 'a>
        ensures { result ≡ outermost home.now in_query }
    {
        Scope {
            home,
            in_query,
            locals: Names::new(alloc),
            loops: 0,
            constants: 0,
        }
    }

    /// Whether the place is in a query.
    pub fn in_query(&self) -> bool
        ensures { result ≡ self.now.in_query }
    {
        self.in_query
    }

    /// The number of the class.
    pub fn own(&self) -> u32
        ensures { result ≡ self.now.home.number }
    {
        let home = self.home;
        home.number
    }

    /// Whether the name stands for a field of the class, a constant or a loop variable.
    pub fn is_taken(&self, name: &[u8]) -> bool
        ensures { result ≡ is_taken self.now name.now }
    {
        let home = self.home;
        home.own.look(name).is_some() || self.locals.look(name).is_some()
    }

    /// The field of the class.
    pub fn field(&self, name: &[u8]) -> Option<Field>
        ensures { result ≡ look self.now.home.own name.now }
    {
        let home = self.home;
        home.own.look(name)
    }

    /// What `this.n` stands for.
    pub fn read_own(&self, name: &[u8]) -> Option<Named>
        ensures { result ≡ read_own self.now name.now }
    {
        Some(Named::Field(self.field(name)?))
    }

    /// What `n` stands for in an expression.
    pub fn read(&self, name: &[u8]) -> Option<Named>
        ensures { result ≡ read self.now name.now }
    {
        match self.locals.look(name) {
            Some(Local::Constant(number, ty)) => Some(Named::Constant(number, ty)),
            _ => self.read_own(name),
        }
    }

    /// What `q.n` stands for.
    pub fn of_loop(&self, variable: &[u8], name: &[u8]) -> Option<LoopField>
        ensures { result ≡ of_loop self.now variable.now name.now }
    {
        match self.locals.look(variable) {
            Some(Local::Loop(loops, Some(class))) => {
                let home = self.home;
                let field = home.known.field(class, name)?;
                Some(LoopField {
                    loops,
                    class,
                    field,
                })
            }
            _ => None,
        }
    }

    /// The number of the class of a name.
    pub fn class_number(&self, name: &[u8]) -> Option<u32>
        ensures { result ≡ class_number self.now name.now }
    {
        let home = self.home;
        home.known.number(name)
    }

    /// How many constants and loop variables are in scope.
    pub fn len(&self) -> usize
        ensures { result ≡ length self.now.locals }
    {
        self.locals.len()
    }

    /// A constant of a type is declared.
    pub fn declare(&mut self, name: &'a Ident, ty: Ty) -> Result<(), NoMemory>
        ensures { OnOk result (self.new ≡ past 1 (declaring name.now ty self.old)) }
    {
        self.locals
            .add(name.text.as_bytes(), Local::Constant(self.constants, ty))?;
        self.constants = next(self.constants)?;
        Ok(())
    }

    /// The block of a loop begins.
    pub fn enter(&mut self, class: &Ident, variable: &'a Ident) -> Result<(), NoMemory>
        ensures { OnOk result (self.new ≡ inside class.now variable.now self.old) }
    {
        let over = self.class_number(class.text.as_bytes());
        self.locals
            .add(variable.text.as_bytes(), Local::Loop(self.loops, over))?;
        self.loops = next(self.loops)?;
        Ok(())
    }

    /// A block ends that began in so many loops and with so many constants and loop variables in
    /// scope.
    pub fn leave(&mut self, loops: u32, len: usize)
        ensures { self.new ≡ record self.old {
          loops = loops;
          locals = take len self.old.locals;
        } }
    {
        self.loops = loops;
        self.locals.keep(len);
    }

    /// How many loops stand around the place.
    pub fn loops(&self) -> u32
        ensures { result ≡ self.now.loops }
    {
        self.loops
    }

    /// How many constants of the class stand before the place.
    pub fn constants(&self) -> u32
        ensures { result ≡ self.now.constants }
    {
        self.constants
    }
}
