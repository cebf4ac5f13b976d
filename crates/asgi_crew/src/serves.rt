//! How items are served.

/// Serves an item, by a worker.
pub trait Serves<W, C> {
    /// What is reported of an item that was served.
    type Report;

    // From the worker as it was to the worker as it is, it served this item, and this is the report.
    ghost serves: { Self → W → W → C → Self.Report → Type 0 };

    /// Serves the item.
    fn serve(&self, worker: &mut W, item: C) -> Self::Report
        ensures { serves self.now worker.old worker.new item result };
}
