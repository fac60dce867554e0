//! Why a form was not read.

ghost use Rattle.std.specs.Prelude.{◌≡◌};
ghost use Rattle.forms.specs.Answers.{refuse};

/// Why there is no value: a form was cut off, or no form begins so.
#[derive(Clone, Copy, Debug, PartialEq, Eq)]
pub enum Stop {
    Short,
    Refused,
}

/// What is next behind a tag that stands for nothing: `Refused`, unless reading stopped before it.
pub fn refusal<T: Copy>(next: Result<T, Stop>) -> Result<T, Stop>
    ensures { result ≡ refuse next }
{
    next.and(Err(Stop::Refused))
}
