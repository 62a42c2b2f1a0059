//! The answer of a command, of what it worked out.

ghost use Rattle.std.specs.Prelude.{◌≡◌, Bool, Err, IfErr, IfOk, Ok};
ghost use Rattle.audit.specs.Verdicts.{is_yes};
ghost use Rattle.frozen_trace.specs.Captured.{is_ran};

use crate::auditing::Judged;
use crate::refused::Refused;
use at_base::Error;
use audit::Verdict;
use frozen_trace::Traced;
use playing::Played;

/// What a command worked out, with the verdict on an image.
pub trait Answer {
    // Whether the verdict is a yes.
    ghost yes: { Self → Bool };

    /// Whether the verdict is a yes.
    fn is_yes(&self) -> bool
        ensures { result ≡ yes self.now };

    /// The image and the verdict on it, but for a run, which keeps its image.
    fn into_judged(self) -> Option<Judged>;
}

impl Answer for Judged {
    ghost yes = { λ it. is_yes it.verdict };

    fn is_yes(&self) -> bool {
        self.verdict.is_yes()
    }

    fn into_judged(self) -> Option<Judged> {
        Some(self)
    }
}

impl Answer for Played {
    ghost yes = { λ it. is_yes it.verdict };

    fn is_yes(&self) -> bool {
        self.verdict.is_yes()
    }

    fn into_judged(self) -> Option<Judged> {
        let Played { image, verdict, .. } = self;
        Some(Judged { image, verdict })
    }
}

impl<R: Drop> Answer for Traced<R> {
    ghost yes = { is_ran };

    fn is_yes(&self) -> bool {
        Traced::is_yes(self)
    }

    fn into_judged(self) -> Option<Judged> {
        match self {
            Traced::Ran(_) => None,
            Traced::No(image, fault) => Some(Judged {
                image,
                verdict: Verdict::No(fault),
            }),
        }
    }
}

/// The answer of a command: the verdict, or its error.
pub fn answer_of<A: Answer>(worked: &Result<A, Refused>) -> Result<bool, Error>
    ensures yes { IfOk worked.now (λ it. result ≡ Ok (A.yes it)) }
    ensures error { IfErr worked.now (λ r. result ≡ Err r.error) }
{
    match worked {
        Ok(it) => Ok(it.is_yes()),
        Err(refused) => Err(refused.error),
    }
}

/// The answer of a command, as by `answer_of`, which lets go of all else that it worked out.
pub fn into_answer<A: Answer + Drop>(worked: Result<A, Refused>) -> Result<bool, Error>
    ensures yes { IfOk worked (λ it. result ≡ Ok (A.yes it)) }
    ensures error { IfErr worked (λ r. result ≡ Err r.error) }
{
    answer_of(&worked)
}
