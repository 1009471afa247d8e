// The numbers of lines, one after another.

ghost use Rattle.std.specs.Prelude.{◌≡◌, ◌++◌, IfOk, OnOk, string_bytes};
ghost use Rattle.std.specs.Fmt.{decimal};
ghost use Rattle.ls_trace.specs.SeenTens.{IsWritten};

use ls_labels::numbers::{push_digit, push_number};
use std::alloc::{AllocError, Global};

/// A number and its text. Of the numbers of ten lines all but the last digit is written once.
#[derive(Drop)]
pub struct Tens {
    number: u64,
    text: String,
}

impl Tens {
    /// The number 0.
    pub(crate) fn new(alloc: Global) -> Result<Tens, AllocError>
        ensures { IfOk result (λ t. IsWritten t) }
    {
        let mut text = String::new(alloc);
        push_number(&mut text, 0)?;
        Ok(Tens { number: 0, text })
    }

    // Has this number.
    fn set(&mut self, number: u64) -> Result<(), AllocError>
        requires { IsWritten self.old }
        ensures written { OnOk result (IsWritten self.new) }
        ensures number { OnOk result (self.new.number ≡ number) }
    {
        if self.number == number {
            return Ok(());
        }
        self.text.clear();
        push_number(&mut self.text, number)?;
        self.number = number;
        Ok(())
    }

    /// Adds the number of a line in decimal. The only refusal is that memory ran out.
    pub(crate) fn push(&mut self, out: &mut String, line: u64) -> Result<(), AllocError>
        requires { IsWritten self.old }
        ensures written { OnOk result (IsWritten self.new) }
        ensures out { OnOk result (string_bytes out.new ≡ string_bytes out.old ++ decimal line) }
    {
        if line < 10 {
            return push_number(out, line);
        }
        self.set(line / 10)?;
        out.push_str(self.text.as_str())?;
        push_digit(out, line % 10)?;
        Ok(())
    }
}
