//! A recorder to begin with, and what can be read of it.
ghost use Rattle.std.specs.Prelude.{◌≡◌, drop, take};
ghost use Rattle.mechanism.specs.Counts.{tally};
ghost use Rattle.recorder.specs.Recorders.{recorder_reserve, recorder_sheet, Begins};

use crate::recorder::Recorder;
use mechanism::buffers::{front, room};
use mechanism::counts::Counts;
use std::marker::PhantomData;

impl<'a, F> Recorder<'a, F> {
    /// A recorder that has written nothing into its buffer.
    pub fn new(out: &'a mut [u8]) -> Recorder<'a, F>
        ensures begins { Begins result out.old }
        ensures lent { result.out.ghost_name ≡ out.entry.ghost_name }
    {
        Recorder {
            out,
            len: 0,
            counts: Counts::new(),
            stopped: false,
            form: PhantomData,
        }
    }

    /// The counts of the actions taken.
    pub fn counts(&self) -> Counts
        ensures { tally result ≡ take 7 (recorder_sheet self.now) }
    {
        self.counts
    }

    /// How many bytes may still be written.
    pub fn reserve(&self) -> u32
        ensures { result ≡ recorder_reserve self.now }
    {
        room(self.out.len(), self.len)
    }

    /// Whether its cover is open.
    pub fn is_stopped(&self) -> bool
        ensures { result ≡ self.now.stopped }
    {
        self.stopped
    }

    /// How many bytes are written.
    pub fn len(&self) -> usize
        ensures { result ≡ self.now.len }
    {
        self.len
    }

    /// The bytes written.
    pub fn written(&self) -> &[u8]
        ensures { result.now ≡ drop 7 (recorder_sheet self.now) }
    {
        front(self.out, self.len)
    }
}
