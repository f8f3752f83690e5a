//! A law of words.

ghost use Rattle.std.specs.Prelude.{◌≡◌, ℕ, List};
ghost use Rattle.ss_words.specs.declared.commands.Command.{Command};
ghost use Rattle.ss_words.specs.Commands.{Asks};

/// Words ask one command at most.
pub fn words_ask_one()
    ensures { (words : List (List ℕ)) (one other : Command) → Asks words one → Asks words other → one ≡ other }
{}
