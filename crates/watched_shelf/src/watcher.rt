/// The receiver of reports on the growth of an output. No other result depends on it.
pub trait Watcher: Drop {
    /// The output has `stands` bytes so far, and will have `whole` if that is known.
    fn tell(&mut self, stands: u64, whole: Option<u64>);

    /// The output grows no more: the last report holds at the end.
    fn finish(&mut self, stands: u64, whole: Option<u64>);
}

impl<W: Watcher> Watcher for Option<W> {
    fn tell(&mut self, stands: u64, whole: Option<u64>) {
        if let Some(watcher) = self {
            watcher.tell(stands, whole);
        }
    }

    fn finish(&mut self, stands: u64, whole: Option<u64>) {
        if let Some(watcher) = self {
            watcher.finish(stands, whole);
        }
    }
}
