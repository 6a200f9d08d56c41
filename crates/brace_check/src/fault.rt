use brace_num::NoMemory;

/// What a check of a script refuses, and the offset at which it is found.
#[derive(Debug, Clone, Copy, Drop)]
pub enum CheckFault {
    /// A rule, or a condition or gift of a class, names a field of another agent.
    OtherAgentInUpdate(u32),
    /// An expression of a query names an effect.
    ReadsEffectInQuery(u32),
    /// A value is said to a state.
    AssignsState(u32),
    /// A child gets a value for an effect.
    AssignsEffect(u32),
    /// A private field of another class is named.
    PrivateOfOtherClass(u32),
    /// A loop stands in two others.
    NestedTooDeep(u32),
    /// A range is above 1,000,000 units.
    BadRange(u32),
    /// The combinator does not fit the type of the effect.
    WrongCombinator(u32),
    /// An operation does not fit the types of its operands, or a value is not of the type that is
    /// asked for.
    WrongType(u32),
    /// The allocator refused memory.
    NoMemory,
}

impl From<NoMemory> for CheckFault {
    ghost use Rattle.std.specs.Prelude.{◌≡◌};
    ghost use Rattle.brace_check.specs.declared.fault.CheckFault.TheVariants as fault;

    ghost from_gives = { λ _ f. f ≡ fault.NoMemory };

    fn from(_: NoMemory) -> CheckFault {
        CheckFault::NoMemory
    }
}
