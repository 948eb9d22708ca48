//! A sink that is watched.

ghost use Rattle.std.specs.Prelude.{◌≡◌};
ghost use Rattle.detail_core.specs.Watched.{sink_of};

use host_core::Sink;
use std::cell::Cell;
use std::io;

/// A sink that hands on what it takes, and remembers the kind of the last error.
#[derive(Drop)]
pub struct WatchedSink<'a, W> {
    sink: W,
    failed: &'a Cell<Option<io::ErrorKind>>,
}

impl<'a, W: Sink> WatchedSink<'a, W> {
    /// This sink, of whose errors the last one is noted here.
    pub fn new(sink: W, failed: &'a Cell<Option<io::ErrorKind>>) -> Self
        ensures { sink_of result ≡ sink }
    {
        WatchedSink { sink, failed }
    }
}

impl<'a, W: Sink> Sink for WatchedSink<'a, W> {
    ghost contents = { λ s. W.contents (sink_of s) };

    ghost failures = { λ s. W.failures (sink_of s) };

    fn write(&mut self, piece: &[u8]) -> io::Result<usize> {
        let outcome = self.sink.write(piece);
        if let Err(error) = &outcome {
            self.failed.set(Some(error.kind()));
        }
        outcome
    }
}
