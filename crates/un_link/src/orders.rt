//! What controls do to the two lanes.

ghost use Rattle.std.specs.Prelude.{◌≡◌, ◌++◌};
ghost use Rattle.un_frame.specs.declared.params.Lane.TheVariants.{Inward, Outward};
ghost use Rattle.un_journal.specs.History.{past};
ghost use Rattle.un_journal.specs.Step.{hinders, order_lines};
ghost use Rattle.un_lane.specs.Controls.{Stays, dropped_lines, posted_lines, unmarked_lines};
ghost use Rattle.un_lane.specs.Phases.{IsDropped};
ghost use Rattle.un_lane.specs.Way.{HasRoom};
ghost use Rattle.un_link.specs.Orders.{AreBoth, DoBoth, KeepBoth, Obeys};

use crate::shared::Shared;
use un_endpoint::{RxEnd, TxEnd};
use un_frame::Lane;
use un_journal::{Control, Journal};
use un_lane::Path;

/// Cuts what is deferred and drops what is built, the outward lane before the inward one.
fn drop_both<A: TxEnd + Drop, B: RxEnd + Drop, C: TxEnd + Drop, D: RxEnd + Drop>(
    out: &mut Path<A, B>,
    inward: &mut Path<C, D>,
    journal: &mut Journal,
    cause: u32,
)
    requires both { AreBoth out.old inward.old journal.old }
    requires room { HasRoom journal.old (dropped_lines cause out.old (past Outward journal.old.history) ++ dropped_lines cause inward.old (past Inward journal.old.history)) }
    ensures { DoBoth IsDropped (dropped_lines cause out.old (past Outward journal.old.history) ++ dropped_lines cause inward.old (past Inward journal.old.history)) out.old out.new inward.old inward.new journal.old journal.new }
{
    out.drop_all(journal, cause);
    inward.drop_all(journal, cause);
}

/// Marks every transfer that isn't marked, the outward lane's before the inward one's.
fn mark_both<A: TxEnd + Drop, B: RxEnd + Drop, C: TxEnd + Drop, D: RxEnd + Drop>(
    out: &mut Path<A, B>,
    inward: &mut Path<C, D>,
    journal: &mut Journal,
    cause: u32,
)
    requires both { AreBoth out.old inward.old journal.old }
    requires room { HasRoom journal.old (unmarked_lines cause out.old ++ unmarked_lines cause inward.old) }
    ensures { DoBoth Stays (unmarked_lines cause out.old ++ unmarked_lines cause inward.old) out.old out.new inward.old inward.new journal.old journal.new }
{
    out.mark_all(journal, cause);
    inward.mark_all(journal, cause);
}

/// Brings every posted request home, the outward lane's before the inward one's.
fn recall_both<A: TxEnd + Drop, B: RxEnd + Drop, C: TxEnd + Drop, D: RxEnd + Drop>(
    out: &mut Path<A, B>,
    inward: &mut Path<C, D>,
    journal: &mut Journal,
)
    requires both { AreBoth out.old inward.old journal.old }
    requires room { HasRoom journal.old (posted_lines out.old ++ posted_lines inward.old) }
    ensures { DoBoth Stays (posted_lines out.old ++ posted_lines inward.old) out.old out.new inward.old inward.new journal.old journal.new }
{
    out.recall_all(journal);
    inward.recall_all(journal);
}

/// Marks every transfer of one lane that isn't marked; what is deferred or built there stays.
fn unlink<A: TxEnd + Drop, B: RxEnd + Drop, C: TxEnd + Drop, D: RxEnd + Drop>(
    out: &mut Path<A, B>,
    inward: &mut Path<C, D>,
    shared: &mut Shared,
    lane: Lane,
)
    requires keep { KeepBoth shared.old.script shared.old.phase out.old inward.old shared.old.journal }
    requires room { HasRoom shared.old.journal (order_lines (Control.Unlink lane) shared.old.next_control shared.old.phase (past Outward shared.old.journal.history) (past Inward shared.old.journal.history)) }
    ensures obeys { Obeys shared.old.script (Control.Unlink lane) shared.old.next_control shared.old.phase out.old out.new inward.old inward.new shared.old.journal shared.new.journal }
    ensures shares { shared.new ≡ record shared.old { journal = shared.new.journal } }
{
    match lane {
        Lane::Outward => out.mark_all(&mut shared.journal, shared.next_control),
        Lane::Inward => inward.mark_all(&mut shared.journal, shared.next_control),
    }
}

/// Unplugs the link: what isn't at an endpoint is given up, each transfer at one is marked, and each posted request comes home.
fn unplug<A: TxEnd + Drop, B: RxEnd + Drop, C: TxEnd + Drop, D: RxEnd + Drop>(
    out: &mut Path<A, B>,
    inward: &mut Path<C, D>,
    shared: &mut Shared,
)
    requires keep { KeepBoth shared.old.script shared.old.phase out.old inward.old shared.old.journal }
    requires room { HasRoom shared.old.journal (order_lines Control.Unplug shared.old.next_control shared.old.phase (past Outward shared.old.journal.history) (past Inward shared.old.journal.history)) }
    ensures obeys { Obeys shared.old.script Control.Unplug shared.old.next_control shared.old.phase out.old out.new inward.old inward.new shared.old.journal shared.new.journal }
    ensures shares { shared.new ≡ record shared.old { journal = shared.new.journal } }
{
    let cause = shared.next_control;
    drop_both(out, inward, &mut shared.journal, cause);
    mark_both(out, inward, &mut shared.journal, cause);
    recall_both(out, inward, &mut shared.journal);
}

/// Does what a control says, with its lines; the controls that are done are its index. Before a suspend nothing is queued outward and nothing flies.
pub(crate) fn obey<A: TxEnd + Drop, B: RxEnd + Drop, C: TxEnd + Drop, D: RxEnd + Drop>(
    out: &mut Path<A, B>,
    inward: &mut Path<C, D>,
    shared: &mut Shared,
    control: Control,
)
    requires keep { KeepBoth shared.old.script shared.old.phase out.old inward.old shared.old.journal }
    requires room { HasRoom shared.old.journal (order_lines control shared.old.next_control shared.old.phase (past Outward shared.old.journal.history) (past Inward shared.old.journal.history)) }
    requires free { hinders control shared.old.phase (past Outward shared.old.journal.history) (past Inward shared.old.journal.history) ≡ 0 }
    ensures obeys { Obeys shared.old.script control shared.old.next_control shared.old.phase out.old out.new inward.old inward.new shared.old.journal shared.new.journal }
    ensures shares { shared.new ≡ record shared.old { journal = shared.new.journal } }
{
    match control {
        Control::Suspend => inward.recall_all(&mut shared.journal),
        Control::Resume | Control::Up => out.resume(),
        Control::Unlink { lane } => unlink(out, inward, shared, lane),
        Control::Down => drop_both(out, inward, &mut shared.journal, shared.next_control),
        Control::Unplug => unplug(out, inward, shared),
    }
}
