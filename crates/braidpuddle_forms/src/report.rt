//! What a call says of a form that was written.

ghost use Rattle.std.specs.Prelude.{◌≡◌};
ghost use Rattle.braidpuddle_forms.specs.Forms.{reported};

use forms::refusal::Refusal;

// 0, and how many bytes were written; or the refusal's number, and the count stays as it was.
pub(crate) fn report(wrote: Result<usize, Refusal>, written: &mut u64) -> u64
    ensures { (result, written.new) ≡ reported wrote written.old }
{
    match wrote {
        Ok(n) => {
            *written = n as u64;
            0
        }
        Err(refusal) => refusal.number() as u64,
    }
}
