//! The numbers of the statuses.
ghost use Rattle.std.specs.Prelude.{◌≡◌};
ghost use Rattle.studio_words.specs.studio_rules.Code.{code_of};

use studio_words::Status;

/// The number with which the program ends. It is never 15 or 20.
pub fn code_of(status: Status) -> u8
    ensures { result ≡ code_of status }
{
    match status {
        Status::BadClaim => Status::Refused as u8,
        other => other as u8,
    }
}
