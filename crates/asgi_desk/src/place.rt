//! Where a report is kept.

use crate::waiting::Waiting;
use std::alloc::{AllocError, Global};

/// Memory for one report while it waits for those before it, reserved before the job is begun, so that handing in the report
/// takes none. It is free again once the teller got the report.
#[derive(Drop)]
pub struct Place<N: Drop> {
    pub(crate) left: Box<Waiting<N>>,
    pub(crate) right: Box<Waiting<N>>,
}

impl<N: Drop> Place<N> {
    /// Memory for one report.
    pub fn new(alloc: Global) -> Result<Place<N>, AllocError> {
        let left = Box::new(alloc, Waiting::Empty)?;
        let right = Box::new(alloc, Waiting::Empty)?;
        Ok(Place { left, right })
    }
}
