//! Laws over the definition of the answer. Each is the contract of a function that does nothing.

ghost use Rattle.std.specs.Prelude.{◌≡◌, ℕ, List};
ghost use Rattle.bpsec_answer.specs.declared.answer.Answer.{Answer};
ghost use Rattle.bpsec_answer.specs.Job.{World};
ghost use Rattle.bpsec_command.specs.Answer.{answer, job};
ghost use Rattle.bpsec_answer.specs.Due.{Devices, EndsWith, Tells};

/// Where the devices tell all, what the work ends with is the answer to the words in the world that they tell: a plain
/// function of words, files and input.
pub fn told_answers_are_the_worlds()
    ensures { (devices : Devices) (world : World) (words : List (List ℕ)) (due : Answer)
        → Tells devices world → EndsWith devices (job words) due
        → due ≡ answer words world }
{}
