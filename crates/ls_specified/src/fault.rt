// Why a class text doesn't specify a program.

use ls_compiler::fault::CompileFault;

/// Why a class text doesn't specify a program.
#[derive(Copy)]
pub enum SpecificationFault {
    Memory,
    /// With the program's text it isn't compiled.
    NotCompiled(CompileFault),
    /// A call answers another type there.
    OtherResult,
}

impl Clone for SpecificationFault {
    fn clone(&self) -> Result<SpecificationFault, std::alloc::AllocError> {
        Ok(*self)
    }
}
