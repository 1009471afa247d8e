// Writers that know whether they have failed.

ghost use Rattle.std.specs.Prelude.{◌≡◌, ◌<◌, ◌≤◌, Bool, false, length, take, true};
ghost use Rattle.std.specs.Io.KnownBytes.{Appends, Keeps};

use std::io::Write;

/// A writer that knows whether it has failed.
pub trait Outlet: Write {
    // Whether a call of `put` or of `settle` has failed.
    ghost has_failed: { Self → Bool };

    /// Writes a beginning of the bytes, and answers how many these are. 0 says that the writer has failed.
    fn put(&mut self, bytes: &[u8]) -> usize
        requires { 0 < length bytes.now }
        ensures within { result ≤ length bytes.now }
        ensures bytes { Appends (Self.contents self.old) (Self.contents self.new) (take result bytes.now) }
        ensures failed { result ≡ 0 → has_failed self.new ≡ true }
        ensures same { 0 < result → has_failed self.new ≡ has_failed self.old };

    /// Has the writer hand on what it holds back. False says that the writer has failed.
    fn settle(&mut self) -> bool
        ensures bytes { Keeps (Self.contents self.old) (Self.contents self.new) }
        ensures failed { result ≡ false → has_failed self.new ≡ true }
        ensures same { result ≡ true → has_failed self.new ≡ has_failed self.old };
}
