use crate::fault::NameFault;
use crate::resolved::Binding;

/// What is found at a place of a script.
#[derive(Clone, Copy, Drop)]
pub enum Finding {
    /// A fault of a name.
    Fault(NameFault),
    /// What a name stands for.
    Names(Binding),
    /// A site, at its offset.
    Site(u32),
    /// An assignment, at its offset.
    Assignment(u32),
}
