//! What is written for a schedule of a world, as theorems alone: which of its lines give an event, and that each event
//! of a node has its line. Each theorem is the contract of a function that does nothing. The headline cites them.

ghost use Rattle.command_line.specs.WorldWritten.{ToldEventsAreWritten, WrittenLinesAreTold};

/// Each whole line of a front of what is written for a schedule that begins as that of an event gives an event that was
/// reported; and one that gives a removal, a removal.
pub fn written_lines_are_told()
    ensures { WrittenLinesAreTold }
{}

/// Each event that was reported is a whole line of what is written.
pub fn told_events_are_written()
    ensures { ToldEventsAreWritten }
{}
