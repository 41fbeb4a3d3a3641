//! What a source and a sink are.

ghost use Rattle.std.specs.Prelude.{ℕ, List};
ghost use Rattle.std.specs.declared.option.Option.{Option};
ghost use Rattle.std.specs.Io.{ReadsAtMost, WritesAtMost};
ghost use Rattle.std.specs.Io.KnownBytes.{ReadConsumes, WriteAppends};
ghost use Rattle.dl_io.specs.Causes.{HasCause, HasWriteCause};

/// A read or a write failed. The stream took or gave no byte in that call.
#[derive(Clone, Copy, Debug, Drop, PartialEq, Eq)]
pub struct Failed;

/// Where bytes come from. It means the bytes that are left, where it tells them, and a count of its
/// faults, which never falls.
pub trait Source {
    ghost left: { Self → Option (List ℕ) };

    ghost faults: { Self → ℕ };

    /// Reads the next bytes into the front of `buf`, and answers how many. `Ok(0)` for a `buf` that
    /// isn't empty is the end of the input.
    ///
    /// `Failed` comes only where the count of faults rose.
    fn read(&mut self, buf: &mut [u8]) -> Result<usize, Failed>
        ensures bound { ReadsAtMost result buf.new }
        ensures bytes { ReadConsumes (left self.old) (left self.new) result buf.new }
        ensures cause { HasCause (faults self.old) (faults self.new) result };
}

/// Where bytes go. It means what was written, where it tells that, and a count of its faults, which
/// never falls.
pub trait Sink {
    ghost written: { Self → Option (List ℕ) };

    ghost faults: { Self → ℕ };

    /// Takes bytes from the front of `bytes`, and answers how many.
    ///
    /// `Failed`, and `Ok(0)` for `bytes` that aren't empty, come only where the count of faults rose.
    fn write(&mut self, bytes: &[u8]) -> Result<usize, Failed>
        ensures bound { WritesAtMost result bytes.now }
        ensures bytes { WriteAppends (written self.old) (written self.new) result bytes.now }
        ensures cause { HasWriteCause (faults self.old) (faults self.new) result bytes.now };
}
