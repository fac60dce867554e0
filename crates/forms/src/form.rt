//! What a byte form is to the code: how values of a type are read, measured and written.

ghost use Rattle.std.specs.Prelude.{◌≡◌, ℕ, ◌+◌, ◌≤◌, length};
ghost use Rattle.forms.specs.Form.{Form, found};
ghost use Rattle.forms.specs.Put.{Writes};

use crate::stop::Stop;

/// A type whose values are written as bytes and read back.
pub trait ByteForm: Copy {
    /// Which bytes they are, with the laws of forms.
    ghost form: { Form Self };

    /// The most bytes that a value takes.
    ghost longest: { ℕ };

    /// Reads the value at the front, and leaves the bytes behind it. After an `Err` what is left means nothing.
    fn read(bytes: &mut &[u8]) -> Result<Self, Stop>
        ensures { found result bytes.new.now ≡ form.read bytes.old.now };

    /// How many bytes the value takes.
    fn len(&self) -> usize
        ensures len { result ≡ length (form.write self.now) }
        ensures longest { result ≤ longest };

    /// Writes the value from `at` on, and says where it ends. The caller has tested the room, by `len`.
    fn write(&self, out: &mut [u8], at: usize) -> usize
        requires { at + length (form.write self.now) ≤ length out.old }
        ensures { Writes at (form.write self.now) out.old out.new result };

    /// No form is long.
    ghost short: { longest ≤ 512 };
}
