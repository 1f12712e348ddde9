//! What holds of all commands.

ghost use Rattle.admin_console.specs.Spelling.{CommandsAreRead};

/// Each command has a text that is read as it.
pub fn commands_are_read()
    ensures { CommandsAreRead }
{}
