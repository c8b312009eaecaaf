ghost use Rattle.std.specs.Prelude.{◌≡◌, IfOk, string_bytes};
ghost use Rattle.mb_program.specs.Lines as line;

use mb_tables::TablesFault;
use std::alloc::{AllocError, Global};

/// The line of a trace that ends inside a record whose first byte is at this offset. `AllocError` where there is
/// no room for it.
pub fn broken_line(alloc: Global, place: u64) -> Result<String, AllocError>
    ensures { IfOk result (λ text. string_bytes text ≡ line.broken place) }
{
    format!(in alloc; "broken {place}\n")
}

/// The line of a tables file that is refused. A fault that is none of its bytes has no line. `AllocError` where there
/// is no room for it.
pub fn tables_line(alloc: Global, fault: TablesFault) -> Result<String, AllocError>
    ensures { IfOk result (λ text. string_bytes text ≡ line.refused_tables fault) }
{
    match fault {
        TablesFault::Magic => format!(in alloc; "tables 1\n"),
        TablesFault::Truncated(place) => format!(in alloc; "tables 2 {place}\n"),
        TablesFault::Order(row) => format!(in alloc; "tables 3 {row}\n"),
        TablesFault::Range(row, field) => format!(in alloc; "tables 4 {row} {field}\n"),
        TablesFault::Trailing => format!(in alloc; "tables 5\n"),
        TablesFault::SourceFault | TablesFault::Memory => Ok(String::new(alloc)),
    }
}
