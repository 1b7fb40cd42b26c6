//! The answers exclude each other.
ghost use Rattle.stow_cli.specs.Law.{AnswersAgree, LimitsExclude};

/// Over files that are told, two answers to the same order are equal. Only the answers to the order of a plan may differ,
/// where both come of a search for the plans of the same voyage, and then one that there is no legal voyage excludes each
/// plan. A limit that is passed excludes each plan too, but for the limit of a certificate's text.
pub fn answers_agree()
    ensures agree { AnswersAgree }
    ensures limits { LimitsExclude }
{}
