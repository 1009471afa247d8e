// Writing all of some bytes.

ghost use Rattle.std.specs.Prelude.{◌≡◌, true};
ghost use Rattle.ls_outlets.specs.Written.{IsWritten};

use crate::outlet::Outlet;

/// Writes all of the bytes. Answers whether that is done; if not, the writer has failed.
pub fn write_whole<W: Outlet>(writer: &mut W, bytes: &[u8]) -> bool
    ensures written { IsWritten bytes.now result (W.contents writer.old) (W.contents writer.new)
        (W.has_failed writer.new) }
    ensures kept { W.has_failed writer.old ≡ true → W.has_failed writer.new ≡ true }
{
    let mut done = 0;
    while done < bytes.len() {
        let count = writer.put(&bytes[done..]);
        if count == 0 {
            return false;
        }
        done += count;
    }
    true
}

/// Writes all of the bytes, and has the writer hand on what it holds back. Answers whether that is done; if not, the
/// writer has failed.
pub fn write_out<W: Outlet>(writer: &mut W, bytes: &[u8]) -> bool
    ensures written { IsWritten bytes.now result (W.contents writer.old) (W.contents writer.new)
        (W.has_failed writer.new) }
    ensures kept { W.has_failed writer.old ≡ true → W.has_failed writer.new ≡ true }
{
    if !write_whole(writer, bytes) {
        return false;
    }
    writer.settle()
}
