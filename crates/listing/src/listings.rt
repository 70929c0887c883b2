// The tasks of a plan are put to a dispatcher over its slot rack, one after another.
ghost use Rattle.std.specs.Prelude.{◌≡◌, [], ◌++◌, ◌≤◌, map, length, IfOk, if◌then◌else◌, Ok, Err, nat_le};
ghost use Rattle.dispatch.specs.Dispatcher.{state_of};
ghost use Rattle.plan.specs.Contents.{contents};
ghost use Rattle.schedule.specs.Calls.{answer, after};
ghost use Rattle.task.specs.Task.{task_of};
ghost use Rattle.listing.specs.Laid.{laid};
ghost use Rattle.listing.specs.Listing.{admission, task_line, task_lines, listed, listing, Verdicts};
ghost use Rattle.listing.specs.Pages.{written, fitting};
ghost use Rattle.listing.specs.declared.refusal.ListingRefusal.TheVariants.{BufferTooSmall};

use crate::page::Field::{Number, Word};
use crate::page::Page;
use crate::refusal::ListingRefusal;
use dispatch::Dispatcher;
use plan::{Fault, Plan};
use rack::SlotRack;
use supply::Supply;
use task::Card;

// What a buffer has to have at least; no listing is longer than 299 bytes.
const ROOM: usize = 512;

// Admits a task and writes its line. A refusal that names no task has 0 in its place, as the definition of a line has it.
fn list_task<S: Supply>(dispatcher: &mut Dispatcher<S>, card: &Card, page: &mut Page)
    ensures text { written page.new ≡ fitting (written page.old ++ task_line (task_of card.now).id (answer (state_of S.Supply.row S.Supply.table dispatcher.old) (admission (task_of card.now)))) }
    ensures few { length (task_line (task_of card.now).id (answer (state_of S.Supply.row S.Supply.table dispatcher.old) (admission (task_of card.now)))) ≤ 9 }
    ensures state { state_of S.Supply.row S.Supply.table dispatcher.new ≡ after (state_of S.Supply.row S.Supply.table dispatcher.old) (admission (task_of card.now)) }
{
    let id = card.id();
    match dispatcher.admit(id, card.run(), card.period(), card.deadline()) {
        Ok(level) => page.put_line(Number(id), &[Word(b"yes"), Number(level)]),
        Err(refusal) => page.put_line(
            Number(id),
            &[Word(b"no"), Number(refusal.task().unwrap_or(0))],
        ),
    }
}

// Admits tasks in turn and writes their lines.
fn list_tasks<S: Supply>(dispatcher: &mut Dispatcher<S>, cards: &[Card], page: &mut Page)
    ensures { written page.new ≡ fitting (written page.old ++ task_lines (state_of S.Supply.row S.Supply.table dispatcher.old) (map task_of cards.now)) }
{
    for card in cards {
        list_task(dispatcher, card, page);
    }
}

// Writes the listing of a plan.
fn list_plan(plan: &Plan, page: &mut Page)
    ensures text { written page.new ≡ fitting (written page.old ++ listed (Ok (contents plan.now))) }
    ensures few { length (listed (Ok (contents plan.now))) ≤ 299 }
{
    let rows = plan.row_count() as u32;
    let cycle = plan.cycle() as u32;
    page.put_line(Word(b"rack"), &[Number(rows), Number(cycle)]);
    let mut dispatcher = Dispatcher::new(SlotRack::new(plan));
    list_tasks(&mut dispatcher, plan.cards(), page);
}

// Writes the listing of a plan at fault.
fn list_fault(fault: Fault, page: &mut Page)
    ensures text { written page.new ≡ fitting (written page.old ++ listed (Err fault)) }
    ensures few { length (listed (Err fault)) ≤ 39 }
{
    let cause = fault.cause.number();
    page.put_line(
        Word(b"fault"),
        &[Number(cause), Number(fault.line), Number(fault.field)],
    );
}

// Writes the listing of a plan text on an empty page.
fn list_text(text: &[u8], page: &mut Page)
    ensures text { written page.old ≡ [] → written page.new ≡ listing text.now }
    ensures few { length (listing text.now) ≤ 299 }
{
    let mut plan = Plan::idle();
    match plan.read(text) {
        Ok(()) => list_plan(&plan, page),
        Err(fault) => list_fault(fault, page),
    }
}

// Writes the listing of a plan text at the front of the buffer, and answers its length; the bytes behind it stay. A buffer of
// less than 512 bytes is refused, and stays as it is. A plan at fault has a listing too.
pub fn list(text: &[u8], out: &mut [u8]) -> Result<usize, ListingRefusal>
    ensures length { result ≡ (if nat_le 512 (length out.old) then Ok (length (listing text.now)) else Err BufferTooSmall) }
    ensures few { IfOk result (λ n. n ≤ 299) }
    ensures verdicts { Verdicts text.now }
    ensures bytes { out.new ≡ (if nat_le 512 (length out.old) then laid 0 (listing text.now) out.old else out.old) }
{
    if out.len() < ROOM {
        return Err(ListingRefusal::BufferTooSmall);
    }
    let mut page = Page::new();
    list_text(text, &mut page);
    let listing = page.bytes();
    out[..listing.len()].copy_from_slice(listing);
    Ok(listing.len())
}
