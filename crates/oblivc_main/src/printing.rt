//! Printing lines, and what a run shows.

ghost use Rattle.std.specs.Prelude.{◌≡◌, IfOk, string_bytes};
ghost use Rattle.oblivc_main.specs.Shown.{shown, shown_item, result_line as line_of_result};
ghost use Rattle.oblivc_main.specs.Endings.{Printed};

use oc_outside::{PutEnd, Sink, write_all};
use oc_walk::ShownItem;
use std::alloc::{AllocError, Global};

/// The line of a result.
fn result_line(alloc: Global, party: u8, value: i128) -> Result<String, AllocError>
    ensures { IfOk result (λ line. string_bytes line ≡ line_of_result party value) }
{
    format!(in alloc; "result{party} {value}\n")
}

/// Prints a line.
pub fn print_line<S: Sink>(out: &mut S, line: &str) -> PutEnd
    ensures { Printed line.now result (S.faults out.old) (S.faults out.new) (S.written out.old) (S.written out.new) }
{
    write_all(out, line.as_bytes())
}

/// Prints one item.
fn print_item<S: Sink>(alloc: Global, out: &mut S, item: &ShownItem) -> PutEnd
    ensures { Printed (shown_item item.now) result (S.faults out.old) (S.faults out.new) (S.written out.old) (S.written out.new) }
{
    match item {
        ShownItem::Print(text) => write_all(out, text.as_bytes()),
        ShownItem::Reveal { .. } => PutEnd::Done,
        ShownItem::Give { party, value, .. } => match result_line(alloc, *party, *value) {
            Ok(line) => write_all(out, line.as_bytes()),
            Err(_) => PutEnd::NoMemory,
        },
    }
}

/// Prints the items in order, until the sink refuses.
pub fn print_all<S: Sink>(alloc: Global, out: &mut S, items: &[ShownItem]) -> PutEnd
    ensures { Printed (shown items.now) result (S.faults out.old) (S.faults out.new) (S.written out.old) (S.written out.new) }
{
    for item in items {
        match print_item(alloc, out, item) {
            PutEnd::Done => {}
            PutEnd::Failed => return PutEnd::Failed,
            PutEnd::NoMemory => return PutEnd::NoMemory,
        }
    }
    PutEnd::Done
}
