// The law of plain words: which words are accepted for sure, stated once for any list of options.
ghost use Rattle.job_words.specs.Commands.{commands};
ghost use Rattle.job_words.specs.Options.{OptionRow};
ghost use Rattle.job_words.specs.Plain.{AcceptsPlainWords, GivenOption, IsAcceptedInForm, IsGiven, IsNamed, IsRequestOfGiven};
ghost use Rattle.std.specs.Prelude.{ℕ, List, All};

/// Words `--name=value` with names of the options, each at most once, and all that are required, are accepted, in any
/// order and with any values, and have the values that they give. So this holds of a command that is still to come.
pub fn plain_words_are_accepted()
    ensures { (options : List OptionRow) (given : List GivenOption) (command : List ℕ)
        → IsNamed options → IsGiven options given → AcceptsPlainWords options given command }
{}

/// A command's name, followed by such words for its options, asks for the values that they give, with the defaults for
/// the other options. Where each value is in its form and range, it is accepted.
pub fn plain_words_are_requests()
    ensures values { All (λ command. (given : List GivenOption)
        → IsGiven command.options given → IsRequestOfGiven command given) commands }
    ensures accepted { All (λ command. (given : List GivenOption)
        → IsGiven command.options given → IsAcceptedInForm command given) commands }
{}
