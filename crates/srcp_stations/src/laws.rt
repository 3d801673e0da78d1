//! Laws of all messages and of all commands. Each function does nothing: its `ensures` is the law.

ghost use Rattle.srcp_stations.specs.Laws.{CommandsAreChecked, CommandsAreShort, CommandsDiffer, DatasetsDiffer};
ghost use Rattle.srcp_stations.specs.Laws.{MessagesDiffer, MessagesReadAgain};

/// States that reading the message of what a station says gives back what it says, whatever stands before the message.
pub fn messages_read_again()
    ensures { MessagesReadAgain }
{}

/// States that no bytes say two things.
pub fn messages_differ()
    ensures { MessagesDiffer }
{}

/// States that no command tells two things.
pub fn commands_differ()
    ensures { CommandsDiffer }
{}

/// States that a command has at most 16 bytes.
pub fn commands_are_short()
    ensures { CommandsAreShort }
{}

/// States that a datagram of a Z21 begins with one dataset at most.
pub fn datasets_differ()
    ensures { DatasetsDiffer }
{}

/// States that the dataset of a command of the X-BUS is found at the front of each datagram that begins with it: its
/// check byte is right.
pub fn commands_are_checked()
    ensures { CommandsAreChecked }
{}
