// The table of answers.
ghost use Rattle.std.specs.Prelude.{◌≡◌, ◌<◌};
ghost use Rattle.rules.specs.Answers.{number_of};

use rules::answer::Answer;

// The number that the rules give an answer. No method, since `rules` holds types alone.
pub fn number(a: Answer) -> u8
    ensures value { result ≡ number_of a }
    ensures two_digits { result < 100 }
{
    a as u8
}
