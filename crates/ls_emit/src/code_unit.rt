// The unit of a method.

use ls_code::code::HandlerRow;
use ls_code::instruction::Instruction;
use std::marker::Model;

/// A method's code as if it began at place 0, and its handler rows. `arguments` counts `this` too, `more` the further
/// locals, and `need` the operands.
#[derive(Drop)]
pub struct CodeUnit {
    pub instructions: Vec<Instruction>,
    pub handlers: Vec<HandlerRow>,
    pub arguments: usize,
    pub more: usize,
    pub need: usize,
}

impl Model for CodeUnit {
    ghost use Rattle.ls_emit.specs.Units.{CodeUnit as UnitValue};

    ghost Value = { UnitValue };

    ghost view = { λ u. record {
      instructions = u.instructions.items;
      handlers = u.handlers.items;
      arguments = u.arguments;
      more = u.more;
      need = u.need;
    } };
}
