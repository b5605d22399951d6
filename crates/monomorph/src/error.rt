//! Why there is no list of instances.
use sail_base::{Place, Text};

/// The first size that isn't a constant, or that passes its limit, or the first instance past theirs.
pub enum MonoError {
    /// A size at this place isn't constant; this is its first free variable.
    SizeOpen(Place, Text),
    /// A width at this place isn't from 0 to 128, or a length isn't from 0 to 4,096; this is it.
    WidthLimit(Place, i128),
    /// The call at this place makes one instance more than 4,096; the count.
    InstanceLimit(Place, u32),
    /// Memory is wanting.
    OutOfMemory,
}

impl Drop for MonoError {
    fn drop(self) {
        match self {
            MonoError::SizeOpen(_, _) => {}
            MonoError::WidthLimit(_, _) => {}
            MonoError::InstanceLimit(_, _) => {}
            MonoError::OutOfMemory => {}
        }
    }
}
