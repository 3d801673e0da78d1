//! Laws of every history. Each function does nothing: its `ensures` is the law.
ghost use Rattle.srcp_feed.specs.History.{ToldOverAnyHistory, ReadOverAnyHistory};

/// States what a panel is told (`told`, by `IsToldRightly`). This holds for any rows in key order and any steps of
/// changes, if the panel is given its lines at any times between:
/// - Listed keys rise (`rising`), no row is listed twice (`never_twice`), and each row is listed as the row was then
///   (`held`).
/// - Once a client applies what was given and what waits, the client holds the rows passed by the listing (`passed`).
///   Once the panel is settled, the client holds exactly the rows (`settled`).
/// - While no step has a change, the panel is told the first of the rows. Once settled, the panel was told all rows
///   (`still`).
/// - A row that is there from the beginning until the panel is settled is listed exactly once (`once`).
///
/// States also, if all rows and changes are well formed (`read`, by `IsReadRightly`):
/// - However many bytes were sent, the bytes are whole lines and a begun line (`lines`).
/// - A client that reads all lines of a settled panel holds exactly the rows (`client_is`).
pub fn told_over_any_history()
    ensures told { ToldOverAnyHistory }
    ensures read { ReadOverAnyHistory }
{}
