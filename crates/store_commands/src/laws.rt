ghost use Rattle.store_commands.specs.Locality.{LeavesOthers, SeesNamed};
ghost use Rattle.store_commands.specs.Refusals.{ErrorsChangeNothing};
ghost use Rattle.store_commands.specs.NoRedirections.{AnswersAreNoRedirections};
ghost use Rattle.store_commands.specs.NoEmptyCollections.{KeepsNoEmptyCollection};

/// StoreExact: a command looks at the keys that it names and changes them alone.
pub fn commands_touch_named_keys_alone()
    ensures changes { LeavesOthers }
    ensures looks { SeesNamed }
{}

/// A store answers no redirection: its errors begin with other words.
pub fn answers_are_no_redirections()
    ensures { AnswersAreNoRedirections }
{}

/// A command that is answered an error changes nothing.
pub fn errors_change_nothing()
    ensures { ErrorsChangeNothing }
{}

/// Where a store keeps no empty hash, list or set, it keeps none after any command.
pub fn commands_leave_no_empty_collection()
    ensures { KeepsNoEmptyCollection }
{}
