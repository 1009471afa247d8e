// Reading all of the input.

ghost use Rattle.std.specs.Prelude.{◌≡◌, ◌⊎◌, IfErr, IfOk, IfSome};
ghost use Rattle.ls_faults.specs.declared.fault.ToolFault.TheVariants as fault;

use ls_faults::fault::ToolFault;
use std::alloc::Global;
use std::io::{ErrorKind, Read};

/// All that the reader has left.
pub(crate) fn read_whole<R: Read>(alloc: Global, reader: &mut R) -> Result<Vec<u8>, ToolFault>
    ensures ok { IfOk result (λ bytes. IfSome (R.remaining reader.old) (λ input. bytes.items ≡ input)) }
    ensures err { IfErr result (λ e. (e ≡ fault.Memory) ⊎ (e ≡ fault.ReadFailed)) }
{
    let mut bytes = Vec::new(alloc);
    match reader.read_to_end(&mut bytes) {
        Ok(_) => Ok(bytes),
        Err(error) => {
            if error.kind() == ErrorKind::OutOfMemory {
                Err(ToolFault::Memory)
            } else {
                Err(ToolFault::ReadFailed)
            }
        }
    }
}
