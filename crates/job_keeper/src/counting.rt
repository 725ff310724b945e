//! Answers of a real form, whose failures are counted.

ghost use Rattle.std.specs.Prelude.{◌≡◌};
ghost use Rattle.job_keeper.specs.Keeping.{HasKeepCause};

use crate::keeper::KeepError;
use io_shelf::Faults;

/// The answer, counted where it is a failure.
pub fn counted<T: Drop>(faults: &mut Faults, answer: Result<T, KeepError>) -> Result<T, KeepError>
    ensures value { result ≡ answer }
    ensures cause { HasKeepCause faults.old.number faults.new.number result }
{
    match answer {
        Err(KeepError::Failed) => Err(faults.count().into()),
        other => other,
    }
}
