ghost use Rattle.client_questions.specs.Kinds.{CommandTellsQuestions};

/// COMMAND tells just those questions that are answered: the names are one list.
pub fn command_tells_questions()
    ensures { CommandTellsQuestions }
{}
