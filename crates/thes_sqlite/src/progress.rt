//! Listeners for the progress of work over the storage.
pub(crate) mod counting_sink;

/// A listener for progress, which can be copied. Its calls don't affect the work.
pub trait Progress: Copy {
    /// Reports the number of rows of the tables read so far, during a load.
    fn report_rows(&mut self, rows: u64);

    /// Reports, at each look-up of a posting by its key, the number of look-ups before it.
    fn report_lookups(&mut self, postings: u64);
}

/// The reports are ignored if there is no listener.
impl<P: Progress> Progress for Option<P> {
    fn report_rows(&mut self, rows: u64) {
        if let Some(progress) = self {
            progress.report_rows(rows);
        }
    }

    fn report_lookups(&mut self, postings: u64) {
        if let Some(progress) = self {
            progress.report_lookups(postings);
        }
    }
}
