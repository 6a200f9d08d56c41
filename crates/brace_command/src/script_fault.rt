ghost use Rattle.std.specs.Prelude.{◌≡◌};
ghost use Rattle.brace_command.specs.Messages.{script_word};
ghost use Rattle.brace_command.specs.Scripts.{token_fault, grammar_fault, name_fault, check_fault};

use brace_check::CheckFault;
use brace_names::{NameFault, Which};
use brace_syntax::SynFault;
use brace_tok::TokFault;

/// What is found where a script has no tree or no program, in the order in which it is tried.
#[derive(Clone, Copy, PartialEq, Eq, Drop)]
pub enum ScriptKind {
    BadByte,
    OpenComment,
    WideLiteral,
    LongWord,
    TooDeep,
    NoReading,
    DuplicateClass,
    DuplicateName,
    UnknownClass,
    UnknownName,
    UnknownType,
    NoPosition,
    TooMany(Which),
    OtherAgentInUpdate,
    ReadsEffectInQuery,
    AssignsState,
    AssignsEffect,
    PrivateOfOtherClass,
    NestedTooDeep,
    BadRange,
    WrongCombinator,
    WrongType,
}

/// Why a script has no tree or no program.
#[derive(Clone, Copy, PartialEq, Eq, Drop)]
pub enum ScriptFault {
    /// It is refused at this offset.
    Refused(ScriptKind, u32),
    /// The allocator refused memory.
    NoMemory,
}

impl ScriptKind {
    /// The word by which the kind is named.
    pub fn word(self) -> &'static [u8]
        ensures { result.now ≡ script_word self }
    {
        match self {
            ScriptKind::BadByte => b"BadByte",
            ScriptKind::OpenComment => b"OpenComment",
            ScriptKind::WideLiteral => b"WideLiteral",
            ScriptKind::LongWord => b"LongWord",
            ScriptKind::TooDeep => b"TooDeep",
            ScriptKind::NoReading => b"NoReading",
            ScriptKind::DuplicateClass => b"DuplicateClass",
            ScriptKind::DuplicateName => b"DuplicateName",
            ScriptKind::UnknownClass => b"UnknownClass",
            ScriptKind::UnknownName => b"UnknownName",
            ScriptKind::UnknownType => b"UnknownType",
            ScriptKind::NoPosition => b"NoPosition",
            ScriptKind::TooMany(Which::Classes) => b"TooMany classes",
            ScriptKind::TooMany(Which::Fields) => b"TooMany fields",
            ScriptKind::TooMany(Which::Sites) => b"TooMany sites",
            ScriptKind::TooMany(Which::Assignments) => b"TooMany assignments",
            ScriptKind::OtherAgentInUpdate => b"OtherAgentInUpdate",
            ScriptKind::ReadsEffectInQuery => b"ReadsEffectInQuery",
            ScriptKind::AssignsState => b"AssignsState",
            ScriptKind::AssignsEffect => b"AssignsEffect",
            ScriptKind::PrivateOfOtherClass => b"PrivateOfOtherClass",
            ScriptKind::NestedTooDeep => b"NestedTooDeep",
            ScriptKind::BadRange => b"BadRange",
            ScriptKind::WrongCombinator => b"WrongCombinator",
            ScriptKind::WrongType => b"WrongType",
        }
    }
}

impl From<TokFault> for ScriptFault {
    ghost from_gives = { λ fault found. found ≡ token_fault fault };

    fn from(fault: TokFault) -> ScriptFault {
        match fault {
            TokFault::BadByte(at) => ScriptFault::Refused(ScriptKind::BadByte, at),
            TokFault::OpenComment(at) => ScriptFault::Refused(ScriptKind::OpenComment, at),
            TokFault::WideLiteral(at) => ScriptFault::Refused(ScriptKind::WideLiteral, at),
            TokFault::LongWord(at) => ScriptFault::Refused(ScriptKind::LongWord, at),
            TokFault::NoMemory => ScriptFault::NoMemory,
        }
    }
}

impl From<SynFault> for ScriptFault {
    ghost from_gives = { λ fault found. found ≡ grammar_fault fault };

    fn from(fault: SynFault) -> ScriptFault {
        match fault {
            SynFault::TooDeep(at) => ScriptFault::Refused(ScriptKind::TooDeep, at),
            SynFault::NoReading(at) => ScriptFault::Refused(ScriptKind::NoReading, at),
            SynFault::NoMemory => ScriptFault::NoMemory,
        }
    }
}

impl From<NameFault> for ScriptFault {
    ghost from_gives = { λ fault found. found ≡ name_fault fault };

    fn from(fault: NameFault) -> ScriptFault {
        match fault {
            NameFault::DuplicateClass(at) => ScriptFault::Refused(ScriptKind::DuplicateClass, at),
            NameFault::DuplicateName(at) => ScriptFault::Refused(ScriptKind::DuplicateName, at),
            NameFault::UnknownClass(at) => ScriptFault::Refused(ScriptKind::UnknownClass, at),
            NameFault::UnknownName(at) => ScriptFault::Refused(ScriptKind::UnknownName, at),
            NameFault::UnknownType(at) => ScriptFault::Refused(ScriptKind::UnknownType, at),
            NameFault::NoPosition(at) => ScriptFault::Refused(ScriptKind::NoPosition, at),
            NameFault::TooMany(which, at) => {
                ScriptFault::Refused(ScriptKind::TooMany(which), at)
            }
            NameFault::NoMemory => ScriptFault::NoMemory,
        }
    }
}

impl From<CheckFault> for ScriptFault {
    ghost from_gives = { λ fault found. found ≡ check_fault fault };

    fn from(fault: CheckFault) -> ScriptFault {
        match fault {
            CheckFault::OtherAgentInUpdate(at) => {
                ScriptFault::Refused(ScriptKind::OtherAgentInUpdate, at)
            }
            CheckFault::ReadsEffectInQuery(at) => {
                ScriptFault::Refused(ScriptKind::ReadsEffectInQuery, at)
            }
            CheckFault::AssignsState(at) => ScriptFault::Refused(ScriptKind::AssignsState, at),
            CheckFault::AssignsEffect(at) => ScriptFault::Refused(ScriptKind::AssignsEffect, at),
            CheckFault::PrivateOfOtherClass(at) => {
                ScriptFault::Refused(ScriptKind::PrivateOfOtherClass, at)
            }
            CheckFault::NestedTooDeep(at) => ScriptFault::Refused(ScriptKind::NestedTooDeep, at),
            CheckFault::BadRange(at) => ScriptFault::Refused(ScriptKind::BadRange, at),
            CheckFault::WrongCombinator(at) => {
                ScriptFault::Refused(ScriptKind::WrongCombinator, at)
            }
            CheckFault::WrongType(at) => ScriptFault::Refused(ScriptKind::WrongType, at),
            CheckFault::NoMemory => ScriptFault::NoMemory,
        }
    }
}
